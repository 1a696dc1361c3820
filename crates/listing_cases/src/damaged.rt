// Flow records that are refused 2 or 3. Their number is not read, so the line has 0.
use crate::inputs::{PORT, check_listing, input};
use sheet::FlowRecord;
use std::test::Fail;

// The first 16 octets and the last 5 of a record, in two numbers as a person compares them, and its refusal.
struct Case {
    high: u128,
    low: u64,
    text: &'static str,
}

// Flow 8, length 100, period 500,000, deadline 20,000, ports 0 and 1, but for the damage.
const CASES: [Case; 13] = [
    // a spare bit
    Case {
        high: 0x0008_0190_007a_1200_0013_8800_0000_0010,
        low: 0x02_0000_0001,
        text: "F 7 0\nR 0 2\nS 2928\n",
    },
    // a start of 1 that is not chosen
    Case {
        high: 0x0008_0190_007a_1200_0013_8800_0000_0090,
        low: 0x02_0000_0000,
        text: "F 7 0\nR 0 2\nS 2928\n",
    },
    // hop count 1 with a port in slot 1
    Case {
        high: 0x0008_0190_007a_1200_0013_8800_0000_0008,
        low: 0x02_0000_0000,
        text: "F 7 0\nR 0 2\nS 2928\n",
    },
    // hop count 0 with a port in slot 1, and with none
    Case {
        high: 0x0008_0190_007a_1200_0013_8800_0000_0000,
        low: 0x02_0000_0000,
        text: "F 7 0\nR 0 2\nS 2928\n",
    },
    Case {
        high: 0x0008_0190_007a_1200_0013_8800_0000_0000,
        low: 0x00_0000_0000,
        text: "F 7 0\nR 0 3\nS 2928\n",
    },
    // hop count 9
    Case {
        high: 0x0008_0190_007a_1200_0013_8800_0000_0048,
        low: 0x02_0000_0000,
        text: "F 7 0\nR 0 3\nS 2928\n",
    },
    // number 0
    Case {
        high: 0x0000_0190_007a_1200_0013_8800_0000_0010,
        low: 0x02_0000_0000,
        text: "F 7 0\nR 0 3\nS 2928\n",
    },
    // 2 before 3: number 0 at bit 0, and a spare bit
    Case {
        high: 0x0000_0190_007a_1200_0013_8800_0000_0010,
        low: 0x02_0000_0001,
        text: "F 7 0\nR 0 2\nS 2928\n",
    },
    // 2 before 3: length 63, and a start that is not chosen
    Case {
        high: 0x0008_00fc_007a_1200_0013_8800_0000_0090,
        low: 0x02_0000_0000,
        text: "F 7 0\nR 0 2\nS 2928\n",
    },
    // 2 before 6: number 7 is held
    Case {
        high: 0x0007_0190_007a_1200_0013_8800_0000_0010,
        low: 0x02_0000_0001,
        text: "F 7 0\nR 0 2\nS 2928\n",
    },
    // 3 before 6: number 7 and length 63
    Case {
        high: 0x0007_00fc_007a_1200_0013_8800_0000_0010,
        low: 0x02_0000_0000,
        text: "F 7 0\nR 0 3\nS 2928\n",
    },
    // 3 before 9: period 0, which divides nothing
    Case {
        high: 0x0008_0190_0000_0000_0013_8800_0000_0010,
        low: 0x02_0000_0000,
        text: "F 7 0\nR 0 3\nS 2928\n",
    },
    // no damage: flow 8 begins on port 0 where flow 7 ends, and ends after 2,928
    Case {
        high: 0x0008_0190_007a_1200_0013_8800_0000_0010,
        low: 0x02_0000_0000,
        text: "F 7 0\nF 8 864\nS 3792\n",
    },
];

// Flow 7 is held: 864 + 100 + 1,000 to port 1, and 864 + 100 there.
#[test]
fn beside_a_held_flow(rt: HostRuntime) -> Result<(), Fail> {
    let heap = rt.alloc();
    let held = FlowRecord::new(7, 100, 500_000, 20_000, &[0, 1]);
    for case in &CASES {
        let mut octets = input(heap, 1_000_000, &[3, 3], &PORT, &[held])?;
        octets.extend_from_slice(&case.high.to_be_bytes())?;
        octets.extend_from_slice(&case.low.to_be_bytes()[3..8])?;
        check_listing(&rt, heap, &octets, case.text)?;
    }
    Ok(())
}

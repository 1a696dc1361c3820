// Refused fillings and set-ups.
use crate::inputs::{PORT, begun, check_flows, check_listing, input};
use sheet::FlowRecord;
use std::test::Fail;

// A port record that may stand: 100 × 2^47 + 1,000 × 2^27 + 1,522 × 2^13.
const GOOD: u64 = 0x0032_001f_40be_4000;

// Its last spare bit set.
const SPARE: u64 = 0x0032_001f_40be_4001;

// Best effort up to 63, below its limit.
const LOW: u64 = 0x0032_001f_4007_e000;

// Best effort up to 1,523: within the limits of a record, above the largest frame of the line.
const LONG: u64 = 0x0032_001f_40be_6000;

// Two ports; `text` is the whole listing.
struct Case {
    cycle: u32,
    codes: [u8; 2],
    ports: [u64; 2],
    text: &'static str,
}

const CASES: [Case; 21] = [
    // the least and the greatest cycle
    Case {
        cycle: 1_000,
        codes: [1, 2],
        ports: [GOOD, GOOD],
        text: "S 0\n",
    },
    Case {
        cycle: 1_000_000_000,
        codes: [2, 3],
        ports: [GOOD, GOOD],
        text: "S 0\n",
    },
    // one below and one above
    Case {
        cycle: 999,
        codes: [3, 3],
        ports: [GOOD, GOOD],
        text: "X 5\n",
    },
    Case {
        cycle: 1_000_000_001,
        codes: [3, 3],
        ports: [GOOD, GOOD],
        text: "X 5\n",
    },
    // the most that four octets hold
    Case {
        cycle: 0xffff_ffff,
        codes: [3, 3],
        ports: [GOOD, GOOD],
        text: "X 5\n",
    },
    // rate codes 0, 4 and 255
    Case {
        cycle: 1_000_000,
        codes: [0, 3],
        ports: [GOOD, GOOD],
        text: "X 5\n",
    },
    Case {
        cycle: 1_000_000,
        codes: [3, 0],
        ports: [GOOD, GOOD],
        text: "X 5\n",
    },
    Case {
        cycle: 1_000_000,
        codes: [4, 3],
        ports: [GOOD, GOOD],
        text: "X 5\n",
    },
    Case {
        cycle: 1_000_000,
        codes: [3, 4],
        ports: [GOOD, GOOD],
        text: "X 5\n",
    },
    Case {
        cycle: 1_000_000,
        codes: [3, 255],
        ports: [GOOD, GOOD],
        text: "X 5\n",
    },
    // a damaged record, first or last
    Case {
        cycle: 1_000_000,
        codes: [3, 3],
        ports: [SPARE, GOOD],
        text: "X 2\n",
    },
    Case {
        cycle: 1_000_000,
        codes: [3, 3],
        ports: [GOOD, LOW],
        text: "X 3\n",
    },
    // 2 before 3 in a record, though the field of the 3 stands earlier
    Case {
        cycle: 1_000_000,
        codes: [3, 3],
        ports: [LOW + 1, GOOD],
        text: "X 2\n",
    },
    // the first faulty record decides: a 3 in record 0, a 2 in record 1
    Case {
        cycle: 1_000_000,
        codes: [3, 3],
        ports: [LOW, SPARE],
        text: "X 3\n",
    },
    // a propagation delay of 100,001
    Case {
        cycle: 1_000_000,
        codes: [3, 3],
        ports: [GOOD, 0xc350_801f_40be_4000],
        text: "X 3\n",
    },
    // best effort above the largest frame, and above the limit of the record
    Case {
        cycle: 1_000_000,
        codes: [3, 3],
        ports: [GOOD, LONG],
        text: "X 5\n",
    },
    Case {
        cycle: 1_000_000,
        codes: [3, 3],
        ports: [GOOD, 0x0032_001f_44b0_2000],
        text: "X 3\n",
    },
    // a wrong rate code before a damaged record
    Case {
        cycle: 1_000_000,
        codes: [3, 4],
        ports: [SPARE, GOOD],
        text: "X 5\n",
    },
    // a damaged record before a wrong cycle
    Case {
        cycle: 999,
        codes: [3, 3],
        ports: [GOOD, SPARE],
        text: "X 2\n",
    },
    Case {
        cycle: 1_000_000_001,
        codes: [3, 3],
        ports: [LOW, GOOD],
        text: "X 3\n",
    },
    // a damaged record before best effort above the largest frame in an earlier one
    Case {
        cycle: 1_000_000,
        codes: [3, 3],
        ports: [LONG, SPARE],
        text: "X 2\n",
    },
];

#[test]
fn two_ports(rt: HostRuntime) -> Result<(), Fail> {
    let heap = rt.alloc();
    for case in &CASES {
        let mut octets = begun(heap, case.cycle, 2)?;
        octets.extend_from_slice(&case.codes)?;
        for port in &case.ports {
            octets.extend_from_slice(&port.to_be_bytes())?;
        }
        check_listing(&rt, heap, &octets, case.text)?;
    }
    Ok(())
}

#[test]
fn numbers_of_ports(rt: HostRuntime) -> Result<(), Fail> {
    let heap = rt.alloc();
    check_flows(&rt, heap, 1_000_000, &[3; 32], &[], "S 0\n")?;
    // nothing is missing, and a line has at most 32 ports
    check_flows(&rt, heap, 1_000_000, &[3; 33], &[], "X 5\n")?;
    check_flows(&rt, heap, 1_000_000, &[3; 255], &[], "X 5\n")?;
    // but for the last octet: too short comes first
    let mut octets = input(heap, 1_000_000, &[3; 33], &PORT, &[])?;
    assert_eq!(rt; octets.pop(), Some(0));
    check_listing(&rt, heap, &octets, "X 1\n")?;
    // a refused set-up lists no flow
    let good = FlowRecord::new(7, 64, 999, 20_000, &[0]);
    check_flows(&rt, heap, 999, &[3], &[good], "X 5\n")
}

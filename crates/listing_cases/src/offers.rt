// Refused offers, one condition or two at once.
use crate::inputs::{at, check_flows};
use sheet::FlowRecord;
use std::test::Fail;

// Port 0 at 1,000 Mb/s and port 1 at 10 Mb/s, cycle 1,000,000. Flow 7 is held on port 0 from 0 to 864.
#[test]
fn beside_a_held_flow(rt: HostRuntime) -> Result<(), Fail> {
    let heap = rt.alloc();
    let held = FlowRecord::new(7, 100, 500_000, 20_000, &[0]);
    let table = [
        // the number is held
        (held, "R 7 6"),
        // 6 before 9: 300,000 does not divide the cycle
        (FlowRecord::new(7, 100, 300_000, 20_000, &[0]), "R 7 6"),
        (FlowRecord::new(8, 100, 300_000, 20_000, &[0]), "R 8 9"),
        // 20 periods in the cycle
        (FlowRecord::new(8, 100, 50_000, 20_000, &[0]), "R 8 9"),
        // a period longer than the cycle
        (FlowRecord::new(8, 100, 2_000_000, 20_000, &[0]), "R 8 9"),
        // 9 before 10: there is no port 2
        (FlowRecord::new(8, 100, 300_000, 20_000, &[2]), "R 8 9"),
        (FlowRecord::new(8, 100, 500_000, 20_000, &[2]), "R 8 10"),
        // a port comes again
        (
            FlowRecord::new(8, 100, 500_000, 90_000, &[0, 1, 0]),
            "R 8 10",
        ),
        // 10 before 11
        (
            FlowRecord::new(8, 1_523, 500_000, 20_000, &[0, 0]),
            "R 8 10",
        ),
        (FlowRecord::new(8, 1_523, 500_000, 20_000, &[0]), "R 8 11"),
        // 11 before 12: 1,531 octets of 800 ns
        (FlowRecord::new(8, 1_523, 500_000, 20_000, &[1]), "R 8 11"),
        // at the second hop only: 1,008 octets of 800 ns
        (
            FlowRecord::new(8, 1_000, 500_000, 1_000_000, &[0, 1]),
            "R 8 12",
        ),
        // 12 before 13
        (FlowRecord::new(8, 1_000, 500_000, 1, &[0, 1]), "R 8 12"),
        // total times 864 + 100, and 864 + 1,100 + 86,400 + 100
        (FlowRecord::new(8, 100, 500_000, 963, &[0]), "R 8 13"),
        (FlowRecord::new(8, 100, 500_000, 88_463, &[0, 1]), "R 8 13"),
        // 13 before 14
        (
            at(500_000, FlowRecord::new(8, 100, 500_000, 963, &[0])),
            "R 8 13",
        ),
        // a period after 864, where the port is idle
        (
            at(500_864, FlowRecord::new(8, 100, 500_000, 964, &[0])),
            "R 8 14",
        ),
        // 14 before 15: a period after 0, where it is not
        (
            at(500_000, FlowRecord::new(8, 100, 500_000, 964, &[0])),
            "R 8 14",
        ),
        // the last instant of the held span, and the last start that runs into its next one
        (
            at(863, FlowRecord::new(8, 100, 500_000, 964, &[0])),
            "R 8 15",
        ),
        (
            at(499_999, FlowRecord::new(8, 100, 500_000, 964, &[0])),
            "R 8 15",
        ),
    ];
    for (offered, line) in table {
        let text = format!(in heap; "F 7 0\n{line}\nS 964\n")?;
        check_flows(
            &rt,
            heap,
            1_000_000,
            &[3, 1],
            &[held, offered],
            text.as_str(),
        )?;
    }
    Ok(())
}

// A refused flow is not held, neither its number nor its spans: flows 8 and 9 are refused first and then
// planned. Flow 8 ends with its period, so flow 9 fits at 0.
#[test]
fn a_refusal_changes_nothing(rt: HostRuntime) -> Result<(), Fail> {
    let flows = [
        FlowRecord::new(8, 100, 500_000, 963, &[0]),
        at(500_000, FlowRecord::new(8, 100, 500_000, 964, &[0])),
        at(499_136, FlowRecord::new(8, 100, 500_000, 964, &[0])),
        at(499_137, FlowRecord::new(9, 100, 500_000, 964, &[0])),
        FlowRecord::new(9, 100, 500_000, 964, &[0]),
    ];
    let text = "R 8 13\nR 8 14\nF 8 499136\nR 9 15\nF 9 0\nS 500100\n";
    check_flows(&rt, rt.alloc(), 1_000_000, &[3], &flows, text)
}

#[test]
fn edges_of_the_period(rt: HostRuntime) -> Result<(), Fail> {
    let heap = rt.alloc();
    let flows = [FlowRecord::new(1, 64, 100_000, 20_000, &[0])];
    // 16 periods and 17
    check_flows(&rt, heap, 1_600_000, &[3], &flows, "F 1 0\nS 676\n")?;
    check_flows(&rt, heap, 1_700_000, &[3], &flows, "R 1 9\nS 0\n")?;
    // a wire time of 57,600 in a period as long: the port is full
    let flows = [
        FlowRecord::new(1, 64, 57_600, 60_000, &[0]),
        FlowRecord::new(2, 64, 57_600, 60_000, &[0]),
    ];
    check_flows(&rt, heap, 57_600, &[1], &flows, "F 1 0\nR 2 15\nS 57700\n")?;
    // and in one that is shorter by 1
    let flows = [FlowRecord::new(1, 64, 57_599, 60_000, &[0])];
    check_flows(&rt, heap, 57_599, &[1], &flows, "R 1 12\nS 0\n")
}

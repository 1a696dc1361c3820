// A plan that holds 64 flows.
use crate::inputs::{PORT, add_records, check_listing, input};
use sheet::FlowRecord;
use std::test::Fail;

// Flows 1 to 64 take 576 ns each, back to back from 0; the last ends at 36,864 and arrives 100 later.
#[test]
fn more_than_64_flows(rt: HostRuntime) -> Result<(), Fail> {
    let heap = rt.alloc();
    let mut octets = input(heap, 1_000_000, &[3], &PORT, &[])?;
    let mut text = String::new(heap);
    // Two numbers come of k: flow k + 1 starts at k times 576.
    for k in 0..64 {
        let number = k + 1;
        add_records(
            &mut octets,
            &[FlowRecord::new(number, 64, 1_000_000, 676, &[0])],
        )?;
        let start = k * 576;
        writeln!(text, "F {number} {start}")?;
    }
    let refused = [
        FlowRecord::new(65, 64, 1_000_000, 676, &[0]),
        // 6 before 7: number 64 is held
        FlowRecord::new(64, 64, 1_000_000, 676, &[0]),
        // 7 before 9: the period does not divide the cycle
        FlowRecord::new(66, 64, 300_000, 676, &[0]),
    ];
    add_records(&mut octets, &refused)?;
    // 1 before 7: one octet of a record
    octets.push(0)?;
    text.push_str("R 65 7\nR 64 6\nR 66 7\nR 0 1\nS 36964\n")?;
    check_listing(&rt, heap, &octets, text.as_str())
}

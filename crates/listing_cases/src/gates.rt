// The gate lists of an input.
use crate::inputs::{PORT, at, input};
use report::gate_lists;
use sheet::{FlowRecord, PortRecord};
use std::alloc::Global;
use std::process::Abort;
use std::test::Fail;

// A port with the delays of `PORT`, and best-effort frames of 64 octets.
const SHORT: PortRecord = PortRecord {
    best_effort: 64,
    ..PORT
};

// What is printed of the gate lists of an input is this text: one line, as the check of a listing is.
fn check_lists(rt: &impl Abort, heap: Global, octets: &[u8], text: &str) -> Result<(), Fail> {
    assert_eq!(rt; gate_lists(heap, octets)?.as_str(), text);
    Ok(())
}

// A frame as long as its period, a flow that is refused 9, and no flow.
#[test]
fn one_state(rt: HostRuntime) -> Result<(), Fail> {
    let heap = rt.alloc();
    let octets = input(
        heap,
        57_600,
        &[1],
        &SHORT,
        &[FlowRecord::new(1, 64, 57_600, 60_000, &[0])],
    )?;
    let text = "port 0: 1 gate records\n  80 for 57600 ns: 80 00 00 E1 00\n";
    check_lists(&rt, heap, &octets, text)?;
    let octets = input(
        heap,
        57_600,
        &[1],
        &SHORT,
        &[FlowRecord::new(1, 64, 57_599, 60_000, &[0])],
    )?;
    let text = "port 0: 1 gate records\n  7F for 57600 ns: 7F 00 00 E1 00\n";
    check_lists(&rt, heap, &octets, text)?;
    let octets = input(heap, 57_600, &[1], &SHORT, &[])?;
    check_lists(&rt, heap, &octets, text)
}

// The guard band is 576. Port 0 is held from 90,000 to 98,064, port 1 from 99,164 to 107,228, across the
// end of the cycle.
#[test]
fn a_span_crosses_the_cycle(rt: HostRuntime) -> Result<(), Fail> {
    let heap = rt.alloc();
    let flows = [at(90_000, FlowRecord::new(1, 1_000, 100_000, 20_000, &[0, 1]))];
    let octets = input(heap, 100_000, &[3, 3], &SHORT, &flows)?;
    let text = "\
port 0: 4 gate records
  7F for 89424 ns: 7F 00 01 5D 50
  00 for 576 ns: 00 00 00 02 40
  80 for 8064 ns: 80 00 00 1F 80
  7F for 1936 ns: 7F 00 00 07 90
port 1: 4 gate records
  80 for 7228 ns: 80 00 00 1C 3C
  7F for 91360 ns: 7F 00 01 64 E0
  00 for 576 ns: 00 00 00 02 40
  80 for 836 ns: 80 00 00 03 44
";
    check_lists(&rt, heap, &octets, text)
}

#[test]
fn refused(rt: HostRuntime) -> Result<(), Fail> {
    let heap = rt.alloc();
    let flows = [FlowRecord::new(1, 64, 1_000, 20_000, &[0])];
    let wrong_code = input(heap, 1_000, &[4], &PORT, &flows)?;
    let short_cycle = input(heap, 999, &[3], &PORT, &flows)?;
    let table: [(&[u8], &str); 7] = [
        (&[], "X 1\n"),
        (&[0, 15, 66, 64, 1], "X 1\n"),
        (&[0, 15, 66, 64, 0], "X 5\n"),
        (&wrong_code, "X 5\n"),
        (&short_cycle, "X 5\n"),
        // a port record with a spare bit
        (
            &[0, 15, 66, 64, 1, 3, 0, 50, 0, 31, 64, 190, 64, 1],
            "X 2\n",
        ),
        // and one with best effort up to 63
        (&[0, 15, 66, 64, 1, 3, 0, 50, 0, 31, 64, 7, 224, 0], "X 3\n"),
    ];
    for (octets, text) in table {
        check_lists(&rt, heap, octets, text)?;
    }
    Ok(())
}

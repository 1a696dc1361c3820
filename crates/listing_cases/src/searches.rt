// Earliest starts that one look over the held flows does not find, and ports without one.
use crate::inputs::{at, check_flows};
use sheet::FlowRecord;
use std::test::Fail;

// Port 0 is taken from 0 to 864 and from 900 to 1,764. At start 0 the offered flow clears the later span,
// but past the earlier one, at 864, it meets the later: 36 ns do not hold 576.
#[test]
fn past_one_flow_onto_another(rt: HostRuntime) -> Result<(), Fail> {
    let heap = rt.alloc();
    let first = FlowRecord::new(1, 100, 100_000, 20_000, &[0]);
    let second = FlowRecord::new(2, 100, 100_000, 20_000, &[0]);
    let third = FlowRecord::new(3, 64, 100_000, 20_000, &[0]);
    let flows = [at(900, first), at(0, second), third];
    let text = "F 1 900\nF 2 0\nF 3 1764\nS 2440\n";
    check_flows(&rt, heap, 100_000, &[3], &flows, text)?;
    // the same with the flows in the other order
    let flows = [at(0, first), at(900, second), third];
    let text = "F 1 0\nF 2 900\nF 3 1764\nS 2440\n";
    check_flows(&rt, heap, 100_000, &[3], &flows, text)
}

// Flow 1 takes 0 to 576 in each 2,000, and flow 2 takes 576 to 1,664 in 10,000.
// Past flow 2, at 1,664, flow 3 meets the next span of flow 1, which ends at 2,576.
#[test]
fn onto_the_next_span_of_the_first(rt: HostRuntime) -> Result<(), Fail> {
    let flows = [
        FlowRecord::new(1, 64, 2_000, 20_000, &[0]),
        FlowRecord::new(2, 128, 10_000, 20_000, &[0]),
        FlowRecord::new(3, 64, 10_000, 20_000, &[0]),
    ];
    let text = "F 1 0\nF 2 576\nF 3 2576\nS 3252\n";
    check_flows(&rt, rt.alloc(), 10_000, &[3], &flows, text)
}

// Port 0 is taken from 1,000 to 1,576, port 1 from 1,676 to 2,252 and from 3,300 to 3,876.
// The second hop of flow 4 comes 1,676 after its start. From 0 it meets flow 2; from 576 the first hop
// meets flow 1; from 1,576 the second hop meets flow 3; from 2,200 both are clear.
#[test]
fn from_hop_to_hop(rt: HostRuntime) -> Result<(), Fail> {
    let flows = [
        at(1_000, FlowRecord::new(1, 64, 100_000, 20_000, &[0])),
        at(1_676, FlowRecord::new(2, 64, 100_000, 20_000, &[1])),
        at(3_300, FlowRecord::new(3, 64, 100_000, 20_000, &[1])),
        FlowRecord::new(4, 64, 100_000, 20_000, &[0, 1]),
    ];
    let text = "F 1 1000\nF 2 1676\nF 3 3300\nF 4 2200\nS 4552\n";
    check_flows(&rt, rt.alloc(), 100_000, &[3, 3], &flows, text)
}

#[test]
fn no_start(rt: HostRuntime) -> Result<(), Fail> {
    let heap = rt.alloc();
    // the second span ends with the period, and then the port is full
    let flows = [
        FlowRecord::new(1, 64, 1_152, 676, &[0]),
        FlowRecord::new(2, 64, 1_152, 676, &[0]),
        FlowRecord::new(3, 64, 1_152, 676, &[0]),
    ];
    let text = "F 1 0\nF 2 576\nR 3 15\nS 1252\n";
    check_flows(&rt, heap, 1_152, &[3], &flows, text)?;
    // each held flow alone leaves room, but the two gaps of 424 do not
    let flows = [
        FlowRecord::new(1, 64, 2_000, 676, &[0]),
        at(1_000, FlowRecord::new(2, 64, 2_000, 676, &[0])),
        FlowRecord::new(3, 64, 2_000, 676, &[0]),
    ];
    let text = "F 1 0\nF 2 1000\nR 3 15\nS 1676\n";
    check_flows(&rt, heap, 2_000, &[3], &flows, text)?;
    // a gap of 8,936 in 10,000, but of five spans of the offered flow one always meets the held:
    // 2,000 do not hold 1,064 twice
    let flows = [
        FlowRecord::new(1, 125, 10_000, 1_164, &[0]),
        FlowRecord::new(2, 125, 2_000, 1_164, &[0]),
    ];
    let text = "F 1 0\nR 2 15\nS 1164\n";
    check_flows(&rt, heap, 10_000, &[3], &flows, text)
}

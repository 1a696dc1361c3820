// Spans on every repetition, across the edges of the period and of the cycle.
use crate::inputs::{at, check_flows};
use sheet::FlowRecord;
use std::test::Fail;

// The worked case: flow 7 holds port 1 from 1,964 to 2,828, and any earlier start of flow 9 meets it.
#[test]
fn worked(rt: HostRuntime) -> Result<(), Fail> {
    let flows = [
        FlowRecord::new(7, 100, 500_000, 20_000, &[0, 1]),
        FlowRecord::new(9, 1_000, 1_000_000, 20_000, &[1]),
        FlowRecord::new(11, 64, 300_000, 20_000, &[0]),
    ];
    let text = "F 7 0\nF 9 2828\nR 11 9\nS 10992\n";
    check_flows(&rt, rt.alloc(), 1_000_000, &[3, 3], &flows, text)
}

// 64 octets take 57,600, 5,760 and 576 ns. Flow 1 holds port 0 from 0 to 57,600, port 1 from 58,700 to
// 64,460 and port 2 from 65,560 to 66,136, and arrives at 66,236.
// Around its spans one nanosecond decides. Flow 2 arrives last: 57,600 + 57,600 + 100.
#[test]
fn three_rates(rt: HostRuntime) -> Result<(), Fail> {
    let flows = [
        FlowRecord::new(1, 64, 1_000_000, 66_235, &[0, 1, 2]),
        FlowRecord::new(1, 64, 1_000_000, 66_236, &[0, 1, 2]),
        FlowRecord::new(2, 64, 1_000_000, 100_000, &[0]),
        at(52_941, FlowRecord::new(3, 64, 1_000_000, 100_000, &[1])),
        at(52_940, FlowRecord::new(3, 64, 1_000_000, 100_000, &[1])),
        at(64_459, FlowRecord::new(4, 64, 1_000_000, 100_000, &[1])),
        at(64_460, FlowRecord::new(4, 64, 1_000_000, 100_000, &[1])),
        at(64_985, FlowRecord::new(5, 64, 1_000_000, 100_000, &[2])),
        at(64_984, FlowRecord::new(5, 64, 1_000_000, 100_000, &[2])),
        at(66_135, FlowRecord::new(6, 64, 1_000_000, 100_000, &[2])),
        at(66_136, FlowRecord::new(6, 64, 1_000_000, 100_000, &[2])),
    ];
    let text = "\
R 1 13
F 1 0
F 2 57600
R 3 15
F 3 52940
R 4 15
F 4 64460
R 5 15
F 5 64984
R 6 15
F 6 66136
S 115300
";
    check_flows(&rt, rt.alloc(), 1_000_000, &[1, 2, 3], &flows, text)
}

// Flow 1 holds port 1 from 90,000 + 9,164 to 107,228, across the end of the cycle.
// So port 1 is taken at places 0 to 7,227 and from 99,164 on.
#[test]
fn a_held_hop_crosses_the_cycle(rt: HostRuntime) -> Result<(), Fail> {
    let flows = [
        at(90_000, FlowRecord::new(1, 1_000, 100_000, 20_000, &[0, 1])),
        FlowRecord::new(2, 64, 100_000, 20_000, &[1]),
        at(98_589, FlowRecord::new(3, 64, 100_000, 20_000, &[1])),
        at(98_588, FlowRecord::new(3, 64, 100_000, 20_000, &[1])),
    ];
    let text = "F 1 90000\nF 2 7228\nR 3 15\nF 3 98588\nS 107328\n";
    check_flows(&rt, rt.alloc(), 100_000, &[3, 3], &flows, text)
}

// Flow 1 has half the cycle as its period. It holds port 0 from 45,000 to 53,064, across the edge of its
// period, and port 1 from 54,164 to 62,228, wholly in the next one: round the period, 4,164 to 12,228.
// At 4,164 itself the wire is idle, but at 104,164 it is not.
#[test]
fn a_held_hop_in_the_next_period(rt: HostRuntime) -> Result<(), Fail> {
    let flows = [
        at(45_000, FlowRecord::new(1, 1_000, 50_000, 20_000, &[0, 1])),
        at(4_164, FlowRecord::new(2, 64, 100_000, 20_000, &[1])),
        at(12_227, FlowRecord::new(2, 64, 100_000, 20_000, &[1])),
        at(3_588, FlowRecord::new(2, 64, 100_000, 20_000, &[1])),
        FlowRecord::new(3, 64, 100_000, 20_000, &[1]),
        FlowRecord::new(4, 64, 100_000, 20_000, &[0]),
    ];
    let text = "F 1 45000\nR 2 15\nR 2 15\nF 2 3588\nF 3 0\nF 4 3064\nS 62328\n";
    check_flows(&rt, rt.alloc(), 100_000, &[3, 3], &flows, text)
}

// Flow 1 holds port 1 from 0 to 8,064. The second hop of flow 2 begins 9,164 after its start and takes
// 8,064: from 90,000 and from 82,773 it crosses the end of the cycle, from 82,772 it ends there.
#[test]
fn an_offered_hop_crosses_the_cycle(rt: HostRuntime) -> Result<(), Fail> {
    let flows = [
        FlowRecord::new(1, 1_000, 100_000, 20_000, &[1]),
        at(90_000, FlowRecord::new(2, 1_000, 100_000, 20_000, &[0, 1])),
        at(82_773, FlowRecord::new(2, 1_000, 100_000, 20_000, &[0, 1])),
        at(82_772, FlowRecord::new(2, 1_000, 100_000, 20_000, &[0, 1])),
    ];
    let text = "F 1 0\nR 2 15\nR 2 15\nF 2 82772\nS 100100\n";
    check_flows(&rt, rt.alloc(), 100_000, &[3, 3], &flows, text)
}

// Periods of 400,000 and 300,000: first instants come together modulo 100,000.
// Flow 2 from 200,000 would meet flow 1 at 800,000.
#[test]
fn every_repetition_counts(rt: HostRuntime) -> Result<(), Fail> {
    let flows = [
        FlowRecord::new(1, 100, 400_000, 20_000, &[0]),
        at(200_000, FlowRecord::new(2, 100, 300_000, 20_000, &[0])),
        at(200_864, FlowRecord::new(2, 100, 300_000, 20_000, &[0])),
        FlowRecord::new(3, 100, 300_000, 20_000, &[0]),
    ];
    let text = "F 1 0\nR 2 15\nF 2 200864\nF 3 864\nS 201828\n";
    check_flows(&rt, rt.alloc(), 1_200_000, &[3], &flows, text)
}

// Eight hops of 576 + 1,100 on the last ports: flow 1 holds port 31 from 11,732 to 12,308 and arrives at
// 12,408. The flows after it start later and arrive earlier.
#[test]
fn the_last_ports(rt: HostRuntime) -> Result<(), Fail> {
    let heap = rt.alloc();
    let flows = [
        FlowRecord::new(1, 64, 1_000_000, 12_408, &[24, 25, 26, 27, 28, 29, 30, 31]),
        at(11_731, FlowRecord::new(2, 64, 1_000_000, 676, &[31])),
        at(11_156, FlowRecord::new(2, 64, 1_000_000, 676, &[31])),
        FlowRecord::new(3, 64, 1_000_000, 676, &[24]),
    ];
    let text = "F 1 0\nR 2 15\nF 2 11156\nF 3 576\nS 12408\n";
    check_flows(&rt, heap, 1_000_000, &[3; 32], &flows, text)?;
    // with 31 ports there is no port 31
    let text = "R 1 10\nR 2 10\nR 2 10\nF 3 0\nS 676\n";
    check_flows(&rt, heap, 1_000_000, &[3; 31], &flows, text)
}

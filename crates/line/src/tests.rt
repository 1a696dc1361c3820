// The figures by the code, fillings that are refused, and a line of the tests' own.
ghost use Rattle.std.specs.Prelude.{◌≡◌, ℕ, ◌+◌, ◌*◌, ◌<◌, ◌≤◌};
ghost use Rattle.line.specs.Times.{carried};
ghost use Rattle.std.proofs.Common.{rules};

use crate::cell::Cell;
use crate::ethernet::Ethernet;
use crate::line::Line;
use fault::{Layer, Place, PlanFault, Refusal};
use std::process::Abort;
use std::test::Fail;

// Three ports that are not alike, and a largest frame of 200 octets: 7 ns an octet, and the port's number above that.
#[derive(Clone, Copy)]
struct Odd;

impl Line for Odd {
    const LARGEST: u16 = 200;

    ghost LARGEST = { 200 };

    ghost meaning = { λ _. record { ports = 3; time = λ q l. carried 3 200 q l (7 * l + q) } };

    ghost least = { Prim.search rules };

    ghost greatest = { Prim.search rules };

    ghost some = { Prim.search rules };

    ghost few = { Prim.search rules };

    ghost absent = { Prim.search rules };

    ghost short = { Prim.search rules };

    ghost long = { Prim.search rules };

    ghost timed = { Prim.search rules };

    ghost bounded = { Prim.search rules };

    ghost longer = { Prim.search rules };

    fn ports(&self) -> u8 {
        3
    }

    fn wire_time(&self, port: u8, length: u16) -> u32 {
        if !self.carries(port, length) {
            return 0;
        }
        7 * u32::from(length) + u32::from(port)
    }
}

// The longest wire time of a length on any port, of any line, which has a port 0.
fn slowest<L: Line>(line: &L, length: u16) -> u32
    ensures most { (q : ℕ) → q < (L.meaning line.now).ports → (L.meaning line.now).time q length ≤ result }
    ensures some { (q : ℕ) × (q < (L.meaning line.now).ports) × ((L.meaning line.now).time q length ≡ result) }
{
    let mut most = line.wire_time(0, length);
    for port in 1..line.ports() {
        most = most.max(line.wire_time(port, length));
    }
    most
}

#[test]
fn figures(rt: HostRuntime) -> Result<(), Fail> {
    let mut ethernet = Ethernet::new();
    ethernet.fill(&[1, 2, 3])?;
    assert_eq!(rt; ethernet.wire_time(0, 64), 57_600);
    assert_eq!(rt; ethernet.wire_time(1, 100), 8_640);
    assert_eq!(rt; ethernet.wire_time(2, 1522), 12_240);
    assert_eq!(rt; ethernet.wire_time(2, 1523), 0);
    assert_eq!(rt; ethernet.wire_time(3, 100), 0);
    let mut cell = Cell::new();
    cell.fill(1, 256, 2500)?;
    assert_eq!(rt; cell.wire_time(0, 256), 2_500);
    assert_eq!(rt; cell.wire_time(0, 257), 5_000);
    Ok(())
}

// A refused filling: its fault, and what the fault tells.
fn refused(rt: &impl Abort, answer: Result<(), PlanFault>) {
    assert_eq!(rt; answer, Err(PlanFault::Filling));
    let place = Place {
        index: 0,
        bit: 0,
        hop: 0,
    };
    let layer = Layer::Plan;
    assert_eq!(rt;
        PlanFault::Filling.refusal(),
        Refusal {
            number: 5,
            layer,
            place,
        }
    );
}

#[test]
fn refused_ethernet(rt: HostRuntime) -> Result<(), Fail> {
    let mut line = Ethernet::new();
    line.fill(&[3, 2])?;
    refused(&rt, line.fill(&[]));
    refused(&rt, line.fill(&[1; 33]));
    refused(&rt, line.fill(&[1, 0]));
    refused(&rt, line.fill(&[1, 2, 4]));
    assert_eq!(rt; line.ports(), 2);
    assert_eq!(rt; line.wire_time(0, 1522), 12_240);
    assert_eq!(rt; line.wire_time(1, 100), 8_640);
    Ok(())
}

#[test]
fn refused_cell(rt: HostRuntime) -> Result<(), Fail> {
    let mut line = Cell::new();
    line.fill(2, 256, 2500)?;
    refused(&rt, line.fill(0, 256, 2500));
    refused(&rt, line.fill(33, 256, 2500));
    refused(&rt, line.fill(1, 63, 2500));
    refused(&rt, line.fill(1, 1025, 2500));
    refused(&rt, line.fill(1, 256, 0));
    refused(&rt, line.fill(1, 256, 100_001));
    assert_eq!(rt; line.ports(), 2);
    assert_eq!(rt; line.wire_time(1, 257), 5_000);
    Ok(())
}

#[test]
fn generic(rt: HostRuntime) -> Result<(), Fail> {
    assert_eq!(rt; slowest(&Odd, 100), 702);
    assert_eq!(rt; slowest(&Odd, 201), 0);
    let mut ethernet = Ethernet::new();
    ethernet.fill(&[3, 2, 3])?;
    assert_eq!(rt; slowest(&ethernet, 100), 8_640);
    Ok(())
}

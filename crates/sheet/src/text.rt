// Each record in readable text.
ghost use Rattle.std.specs.Prelude.{◌≡◌, Some};
ghost use Rattle.std.specs.Fmt.{WritesOnOk};
ghost use Rattle.sheet.specs.Texts.{start_text, route_text, flow_text, state_text, gate_text, port_text};

use crate::flow::FlowRecord;
use crate::gate::{GateRecord, GateState};
use crate::port::PortRecord;
use std::fmt;

// A start in readable text: the chosen one, or that none is chosen.
#[derive(Clone, Copy, PartialEq, Eq, Debug)]
pub struct Start(pub Option<u32>);

impl fmt::Display for Start {
    ghost output = { λ x. Some (start_text x.0) };

    fn fmt<W: fmt::Write>(&self, f: &mut fmt::Formatter<W>) -> fmt::Result {
        match self.0 {
            Some(instant) => write!(f, "{instant} ns"),
            None => f.write_str("free"),
        }
    }
}

// The ports of a route, each behind a space.
fn write_route<W: fmt::Write>(f: &mut fmt::Formatter<W>, ports: &[u8]) -> fmt::Result
    ensures prints { WritesOnOk W.write_str_gives f.old result (route_text ports.now) f.new }
{
    for port in ports {
        write!(f, " {port}")?;
    }
    Ok(())
}

impl fmt::Display for FlowRecord {
    ghost output = { λ x. Some (flow_text x) };

    fn fmt<W: fmt::Write>(&self, f: &mut fmt::Formatter<W>) -> fmt::Result {
        write!(
            f,
            "flow {}: length {}, period {} ns, deadline {} ns, start {}, route",
            self.number,
            self.length,
            self.period,
            self.deadline,
            Start(self.start)
        )?;
        write_route(f, self.route())
    }
}

// The octet in hexadecimal: three texts, as they are printed.
impl fmt::Display for GateState {
    ghost output = { λ x. Some (state_text x) };

    fn fmt<W: fmt::Write>(&self, f: &mut fmt::Formatter<W>) -> fmt::Result {
        f.write_str(match self {
            GateState::Scheduled => "80",
            GateState::BestEffort => "7F",
            GateState::Closed => "00",
        })
    }
}

impl fmt::Display for GateRecord {
    ghost output = { λ x. Some (gate_text x) };

    fn fmt<W: fmt::Write>(&self, f: &mut fmt::Formatter<W>) -> fmt::Result {
        write!(f, "gates {} for {} ns", self.state, self.duration)
    }
}

impl fmt::Display for PortRecord {
    ghost output = { λ x. Some (port_text x) };

    fn fmt<W: fmt::Write>(&self, f: &mut fmt::Formatter<W>) -> fmt::Result {
        write!(
            f,
            "port: propagation {} ns, processing {} ns, best effort up to {} octets",
            self.delay, self.processing, self.best_effort
        )
    }
}

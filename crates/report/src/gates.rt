// The text of gate lists.
ghost use Rattle.std.specs.Prelude.{◌/◌, length, Some};
ghost use Rattle.plan.specs.Models.{model};
ghost use Rattle.report.specs.GateLists.{record_line, record_lines, port_text, port_texts};
ghost use Rattle.report.specs.Lines.{wired};

use crate::text::RefusedLine;
use line::Ethernet;
use plan::Plan;
use std::fmt;

// The line of a gate record's octets: its state, its duration, and the octets. From the octets and not from a record, so that a
// person reads what the switch is sent.
#[derive(Clone, Copy)]
struct GateLine([u8; 5]);

impl fmt::Display for GateLine {
    ghost output = { λ line. Some (record_line line.0) };

    fn fmt<W: fmt::Write>(&self, f: &mut fmt::Formatter<W>) -> fmt::Result {
        let [state, a, b, c, d] = self.0;
        let duration = u32::from_be_bytes([a, b, c, d]);
        writeln!(
            f,
            "  {state:02X} for {duration} ns: {state:02X} {a:02X} {b:02X} {c:02X} {d:02X}"
        )
    }
}

// The lines of gate records of five octets each.
#[derive(Clone, Copy)]
struct GateLines<'a>(&'a [u8]);

impl<'a> fmt::Display for GateLines<'a> {
    ghost output = { λ lines. Some (record_lines lines.0.now (length lines.0.now / 5) 0) };

    fn fmt<W: fmt::Write>(&self, f: &mut fmt::Formatter<W>) -> fmt::Result {
        let (records, _) = self.0.as_chunks::<5>();
        for record in records {
            write!(f, "{}", GateLine(*record))?;
        }
        Ok(())
    }
}

// What is printed for a port.
#[derive(Clone, Copy)]
struct PortGates<'a> {
    plan: &'a Plan<Ethernet>,
    port: u8,
}

impl<'a> fmt::Display for PortGates<'a> {
    ghost output = { λ gates. Some (port_text (wired gates.plan.now.line) (model gates.plan.now.setup gates.plan.now.rows) gates.port) };

    fn fmt<W: fmt::Write>(&self, f: &mut fmt::Formatter<W>) -> fmt::Result {
        let port = self.port;
        // made anew for each port, since `fmt` is lent none
        let mut buffer = [0; 15_365];
        match self.plan.gate_list(port, &mut buffer) {
            Ok(count) => {
                let lines = GateLines(&buffer[..5 * count]);
                write!(f, "port {port}: {count} gate records\n{lines}")
            }
            Err(fault) => write!(f, "{}", RefusedLine(fault)),
        }
    }
}

// What is printed for the first ports of a plan.
#[derive(Clone, Copy)]
pub(crate) struct GateLists<'a> {
    pub plan: &'a Plan<Ethernet>,
    pub ports: u8,
}

impl<'a> fmt::Display for GateLists<'a> {
    ghost output = { λ lists. Some (port_texts (wired lists.plan.now.line) (model lists.plan.now.setup lists.plan.now.rows) lists.ports 0) };

    fn fmt<W: fmt::Write>(&self, f: &mut fmt::Formatter<W>) -> fmt::Result {
        for port in 0..self.ports {
            let gates = PortGates {
                plan: self.plan,
                port,
            };
            write!(f, "{gates}")?;
        }
        Ok(())
    }
}

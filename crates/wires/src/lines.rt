// The two lines, and what each command does to them.
ghost use Rattle.std.specs.Prelude.{◌≡◌, [], ◌∷◌};
ghost use Rattle.line.specs.Fillings.{Coded, Celled};
ghost use Rattle.wires.specs.Performed.{Performed, filling, time_of};

use crate::answer::Answer;
use crate::command::{Command, Kind};
use fault::PlanFault;
use line::{Cell, Ethernet, Line};

// One line of each kind.
#[derive(Clone, Copy)]
pub struct Lines {
    ethernet: Ethernet,
    cell: Cell,
}

// The answer to a filling that came out so and left the line as it is.
fn answer_to_filling<L: Line>(kind: Kind, filled: Result<(), PlanFault>, line: &L) -> Answer
    ensures value { result ≡ filling kind filled (L.meaning line.now).ports }
{
    match filled {
        Ok(()) => Answer::Filled {
            kind,
            ports: line.ports(),
        },
        Err(fault) => Answer::Refused { kind, fault },
    }
}

impl Lines {
    // Two new lines.
    pub fn new() -> Lines
        ensures ethernet { Coded (1 ∷ []) result.ethernet }
        ensures cell { Celled 1 64 1 result.cell }
    {
        Lines {
            ethernet: Ethernet::new(),
            cell: Cell::new(),
        }
    }

    // Does what a command asks; a refused filling changes nothing. A command is a value that was read, so a match takes it apart.
    pub fn perform(&mut self, command: &Command) -> Answer
        ensures performed { Performed command.now self.old result self.new }
    {
        match command {
            Command::FillEthernet { codes } => {
                let filled = self.ethernet.fill(codes.as_slice());
                answer_to_filling(Kind::Ethernet, filled, &self.ethernet)
            }
            Command::FillCell { ports, size, time } => {
                let filled = self.cell.fill(*ports, *size, *time);
                answer_to_filling(Kind::Cell, filled, &self.cell)
            }
            Command::WireTime { kind, port, length } => Answer::Time {
                kind: *kind,
                time: self.wire_time(*kind, *port, *length),
            },
        }
    }

    // The kind was read too, so a match picks the line.
    fn wire_time(&self, kind: Kind, port: u8, length: u16) -> u32
        ensures value { result ≡ time_of kind self.now port length }
    {
        match kind {
            Kind::Ethernet => self.ethernet.wire_time(port, length),
            Kind::Cell => self.cell.wire_time(port, length),
        }
    }
}

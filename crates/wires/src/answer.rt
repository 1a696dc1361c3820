// What came of a line of the input, and the sentence that tells it.
ghost use Rattle.std.specs.Prelude.{Some};
ghost use Rattle.wires.specs.Answers.{name, told};

use crate::command::Kind;
use fault::PlanFault;
use std::fmt;

// Each is a line of the output of its own: a refused filling too, and so no Err.
#[derive(Clone, Copy)]
pub enum Answer {
    // The line now has so many ports.
    Filled { kind: Kind, ports: u8 },
    // The line is as it was.
    Refused { kind: Kind, fault: PlanFault },
    // A wire time, in nanoseconds.
    Time { kind: Kind, time: u32 },
    // The line of the input with this number, counted from 1, is no command.
    NotUnderstood { line: usize },
}

impl fmt::Display for Kind {
    ghost output = { λ kind. Some (name kind) };

    fn fmt<W: fmt::Write>(&self, f: &mut fmt::Formatter<W>) -> fmt::Result {
        match *self {
            Kind::Ethernet => f.write_str("ethernet"),
            Kind::Cell => f.write_str("cell"),
        }
    }
}

impl fmt::Display for Answer {
    ghost output = { λ answer. Some (told answer) };

    fn fmt<W: fmt::Write>(&self, f: &mut fmt::Formatter<W>) -> fmt::Result {
        match *self {
            Answer::Filled { kind, ports } => write!(f, "{kind} line filled, ports: {ports}"),
            Answer::Refused { kind, fault } => {
                let number = fault.refusal().number;
                write!(f, "{kind} line not filled, refused {number}: {fault}")
            }
            Answer::Time { kind, time } => write!(f, "{kind} line wire time: {time} ns"),
            Answer::NotUnderstood { line } => write!(
                f,
                "line {line} of the input is not understood"
            ),
        }
    }
}

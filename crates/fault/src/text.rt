// Each fault as a sentence that says what to do.
ghost use Rattle.std.specs.Prelude.{◌≡◌, Some};
ghost use Rattle.fault.specs.Sentences.{sentence, advice};
ghost use Rattle.fault.specs.declared.kinds.PlanFault.TheVariants.{Record};
ghost use Rattle.fault.specs.declared.kinds.RecordFault.TheVariants.{Sheet};

use crate::kinds::{PlanFault, RecordFault, SheetFault};
use std::fmt;

impl fmt::Display for SheetFault {
    ghost output = { λ fault. Some (sentence (Record (Sheet fault))) };

    fn fmt<W: fmt::Write>(&self, f: &mut fmt::Formatter<W>) -> fmt::Result {
        let SheetFault::Unfinished { index } = *self;
        write!(
            f,
            "record {index} does not lie whole in its sheet: lengthen the sheet or ask for an earlier record"
        )
    }
}

impl fmt::Display for RecordFault {
    ghost output = { λ fault. Some (sentence (Record fault)) };

    fn fmt<W: fmt::Write>(&self, f: &mut fmt::Formatter<W>) -> fmt::Result {
        match *self {
            RecordFault::Sheet(fault) => write!(f, "{fault}"),
            RecordFault::NotZero { index, bit } => {
                write!(f, "record {index}: the field at bit {bit} must be zero")
            }
            RecordFault::OutOfLimits { index, bit } => {
                write!(
                    f,
                    "record {index}: the field at bit {bit} is outside its limits"
                )
            }
        }
    }
}

impl PlanFault {
    // The sentence of a fault of the plan layer that has no place, and no text for the others: `fmt` has seen their variants
    // before it asks, so an Option would only be taken apart there.
    fn advice(&self) -> &'static str
        ensures value { result.now ≡ advice self.now }
    {
        match *self {
            PlanFault::Record(_) | PlanFault::Route { .. } | PlanFault::WireTime { .. } => "",
            PlanFault::SetUpTwice =>
                "the plan is set up already: make a new plan for another cycle or other ports",
            PlanFault::NotSetUp => "the plan is not set up: set it up first",
            PlanFault::Filling => "the line takes 1 to 32 ports and figures within their limits",
            PlanFault::Cycle => "the cycle must be from 1000 to 1000000000 ns",
            PlanFault::PortCount => "the port sheet must have one record for each port of the line",
            PlanFault::BestEffort =>
                "a largest best-effort length is above the largest frame of the line",
            PlanFault::NumberHeld =>
                "a flow with this number is held: withdraw it or choose another number",
            PlanFault::Full => "the plan holds 64 flows: withdraw one first",
            PlanFault::NotHeld => "no flow with this number is held",
            PlanFault::NoPort => "the plan has no port with this number",
            PlanFault::Period =>
                "the period must divide the cycle, which may hold at most 16 periods",
            PlanFault::Length => "the length is above the largest frame of the line",
            PlanFault::Deadline =>
                "the route takes longer than the deadline: shorten the route or allow more time",
            PlanFault::Start => "the chosen start must be below the period",
            PlanFault::Taken =>
                "at the chosen start a frame would wait: choose another start, or none",
            PlanFault::NoStart =>
                "at every start below the period a frame would wait: withdraw a flow or change the route",
            PlanFault::Buffer => "the buffer is too short for the records: lend a longer one",
        }
    }
}

impl fmt::Display for PlanFault {
    ghost output = { λ fault. Some (sentence fault) };

    fn fmt<W: fmt::Write>(&self, f: &mut fmt::Formatter<W>) -> fmt::Result {
        match *self {
            PlanFault::Record(fault) => write!(f, "{fault}"),
            PlanFault::Route { hop } => {
                write!(
                    f,
                    "hop {hop}: its port is not a port of the plan, or stands earlier in the route"
                )
            }
            PlanFault::WireTime { hop } => {
                write!(
                    f,
                    "hop {hop}: a frame takes longer on the wire than the period"
                )
            }
            _ => f.write_str(self.advice()),
        }
    }
}

// The line that a fault prints.
ghost use Rattle.std.specs.Prelude.{Some};
ghost use Rattle.records.specs.Sentences.{fault_text};

use fault::RecordFault;
use std::fmt;

// A fault with its number and its place.
#[derive(Clone, Copy, Debug, PartialEq, Eq)]
pub struct FaultLine(pub RecordFault);

impl fmt::Display for FaultLine {
    ghost output = { λ line. Some (fault_text line.0) };

    fn fmt<W: fmt::Write>(&self, f: &mut fmt::Formatter<W>) -> fmt::Result {
        let fault = self.0;
        let refusal = fault.refusal();
        write!(
            f,
            "fault {} at record {}, bit {}: {fault}",
            refusal.number, refusal.place.index, refusal.place.bit
        )
    }
}

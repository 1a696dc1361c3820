// The kinds of sheets, by name.
ghost use Rattle.std.specs.Prelude.{Some, codes};
ghost use Rattle.records.specs.Kinds.{Named};

use std::error::Error;
use std::fmt;
use std::str::FromStr;

#[derive(Clone, Copy, PartialEq, Eq, Debug)]
pub enum Kind {
    Port,
    Flow,
    Gate,
}

// A name of no kind.
#[derive(Clone, Copy, PartialEq, Eq, Debug)]
pub struct UnknownKind;

impl FromStr for Kind {
    type Err = UnknownKind;

    ghost from_str_gives = { Named };

    fn from_str(name: &str) -> Result<Kind, UnknownKind> {
        match name {
            "port" => Ok(Kind::Port),
            "flow" => Ok(Kind::Flow),
            "gate" => Ok(Kind::Gate),
            _ => Err(UnknownKind),
        }
    }
}

impl fmt::Display for UnknownKind {
    ghost output = { λ _. Some (codes "the kind of the records is port, flow or gate") };

    fn fmt<W: fmt::Write>(&self, f: &mut fmt::Formatter<W>) -> fmt::Result {
        write!(f, "the kind of the records is port, flow or gate")
    }
}

impl Error for UnknownKind {}

// The line that the record has for a call and its answer.
ghost use Rattle.std.specs.Prelude.{Some};
ghost use Rattle.worked.specs.Texts.{answer_text};

use plan::{Answer, Reply};
use std::fmt;

// A call's name, and what it answered.
#[derive(Clone, Copy)]
pub(crate) struct AnswerLine<'a> {
    pub(crate) name: &'a str,
    pub(crate) answer: Answer,
}

impl<'a> fmt::Display for AnswerLine<'a> {
    ghost output = { λ line. Some (answer_text line.name.now line.answer) };

    fn fmt<W: fmt::Write>(&self, f: &mut fmt::Formatter<W>) -> fmt::Result {
        let name = self.name;
        match self.answer {
            Ok(Reply::Done) => write!(f, "{name}: done"),
            Ok(Reply::Start(start)) => write!(f, "{name}: start {start}"),
            Ok(Reply::Span(span)) => write!(f, "{name}: {span} ns"),
            Ok(Reply::Records(count)) => write!(f, "{name}: {count} records"),
            Err(fault) => {
                let number = fault.refusal().number;
                write!(f, "{name}: refused {number}: {fault}")
            }
        }
    }
}

// The lines of a listing.
ghost use Rattle.std.specs.Prelude.{◌≡◌, Some};
ghost use Rattle.report.specs.Listings.{number_of, refused_line, answer_line, answer_lines};

use fault::PlanFault;
use plan::{Answer, Reply};
use sheet::{FlowRecord, Reader};
use std::fmt;

// The line of a refusal before any offer.
#[derive(Clone, Copy)]
pub(crate) struct RefusedLine(pub PlanFault);

impl fmt::Display for RefusedLine {
    ghost output = { λ line. Some (refused_line line.0) };

    fn fmt<W: fmt::Write>(&self, f: &mut fmt::Formatter<W>) -> fmt::Result {
        let refusal = self.0.refusal().number;
        writeln!(f, "X {refusal}")
    }
}

// The line of the answer to the offer of a flow of this number, or to the question for the flowspan.
#[derive(Clone, Copy)]
struct AnswerLine {
    number: u16,
    answer: Answer,
}

impl fmt::Display for AnswerLine {
    ghost output = { λ line. Some (answer_line line.number line.answer) };

    fn fmt<W: fmt::Write>(&self, f: &mut fmt::Formatter<W>) -> fmt::Result {
        let number = self.number;
        match self.answer {
            Ok(Reply::Start(start)) => writeln!(f, "F {number} {start}"),
            Ok(Reply::Span(span)) => writeln!(f, "S {span}"),
            Ok(Reply::Done | Reply::Records(_)) => Ok(()),
            Err(fault) => {
                let refusal = fault.refusal().number;
                writeln!(f, "R {number} {refusal}")
            }
        }
    }
}

// The lines of answers, the first of them to the offer of record 0 of these flows.
#[derive(Clone, Copy)]
pub(crate) struct AnswerLines<'a> {
    pub flows: &'a [u8],
    pub answers: &'a [Answer],
}

impl<'a> AnswerLines<'a> {
    // The number of a flow record, and 0 where it is refused, as a listing prints it.
    fn number_of(&self, index: usize) -> u16
        ensures value { result ≡ number_of self.now.flows.now index }
    {
        let record = Reader::new(self.flows, index).read::<FlowRecord>();
        record.map_or(0, |record| record.number)
    }
}

impl<'a> fmt::Display for AnswerLines<'a> {
    ghost output = { λ lines. Some (answer_lines lines.flows.now 0 lines.answers.now) };

    fn fmt<W: fmt::Write>(&self, f: &mut fmt::Formatter<W>) -> fmt::Result {
        for (index, answer) in self.answers.iter().enumerate() {
            let line = AnswerLine {
                number: self.number_of(index),
                answer: *answer,
            };
            write!(f, "{line}")?;
        }
        Ok(())
    }
}

// The output, line by line.
ghost use Rattle.std.specs.Prelude.{IfOk, string_bytes, OnOk};
ghost use Rattle.wires.specs.Answered.{Answered};
ghost use Rattle.wires.specs.Transcript.{Noted, Transcript};

use crate::answer::Answer;
use crate::lines::Lines;
use crate::read::read;
use crate::words::words_of;
use std::alloc::{AllocError, Global};

impl Lines {
    // What comes of one line of the input.
    pub fn answer(&mut self, heap: Global, number: usize, line: &str) -> Result<Answer, AllocError>
        ensures answered { IfOk result (λ a. Answered number line.now self.old a self.new) }
    {
        let words = words_of(heap, line)?;
        match read(heap, words.as_slice())? {
            Some(command) => Ok(self.perform(&command)),
            None => Ok(Answer::NotUnderstood { line: number }),
        }
    }
}

// Answers one line of the input at the end of the text. The lines and the text are two things that a call changes, and stay
// apart.
fn note(
    lines: &mut Lines,
    heap: Global,
    number: usize,
    line: &str,
    text: &mut String,
) -> Result<(), AllocError>
    ensures noted { OnOk result (Noted number line.now lines.old (string_bytes text.old) lines.new (string_bytes text.new)) }
{
    let answer = lines.answer(heap, number, line)?;
    writeln!(text, "{answer}")
}

// What comes of the whole input.
pub fn transcript(heap: Global, input: &str) -> Result<String, AllocError>
    ensures recorded { IfOk result (λ s. Transcript input.now (string_bytes s)) }
{
    let mut lines = Lines::new();
    let mut text = String::new(heap);
    for (index, line) in input.lines().enumerate() {
        note(&mut lines, heap, index + 1, line, &mut text)?;
    }
    Ok(text)
}

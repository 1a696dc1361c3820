// The functions for a program in C: calls in octets on a plan on either line.
ghost use Rattle.std.specs.Prelude.{◌≡◌, negsuc};
ghost use Rattle.line.specs.Fillings.{Codes, Cells};
ghost use Rattle.interface.specs.Lines.{ethernet, cells};
ghost use Rattle.interface.specs.Performed.{Performs, came_to, returned_number};

use crate::perform::performed;
use crate::performed::Performed;
use crate::unperformed::Unperformed;
use line::{Cell, Ethernet};

// Calls on a plan on an Ethernet line with these rate codes.
pub fn givrethans_perform_ethernet(
    codes: &[u8],
    calls: &[u8],
    answers: &mut [u8],
    buffer: &mut [u8],
) -> i64
    ensures performs { Codes codes.now → Performs (ethernet codes.now) calls.now answers.old buffer.old (came_to result answers.new buffer.new) }
    ensures refused { (Codes codes.now → ⊥) → came_to result answers.new buffer.new ≡ came_to (negsuc 0) answers.old buffer.old }
{
    returned_number(perform_ethernet(codes, calls, answers, buffer))
}

// Calls on a plan on a cell line with these figures.
pub fn givrethans_perform_cells(
    ports: u8,
    cell_size: u16,
    cell_time: u32,
    calls: &[u8],
    answers: &mut [u8],
    buffer: &mut [u8],
) -> i64
    ensures performs { Cells ports cell_size cell_time → Performs (cells ports cell_size cell_time) calls.now answers.old buffer.old (came_to result answers.new buffer.new) }
    ensures refused { (Cells ports cell_size cell_time → ⊥) → came_to result answers.new buffer.new ≡ came_to (negsuc 0) answers.old buffer.old }
{
    returned_number(perform_cells(ports, cell_size, cell_time, calls, answers, buffer))
}

// The calls on an Ethernet line, or why none is performed. This and the next are two, since each line is filled from figures of
// its own, of which the clauses speak.
fn perform_ethernet(
    codes: &[u8],
    calls: &[u8],
    answers: &mut [u8],
    buffer: &mut [u8],
) -> Result<Performed, Unperformed>
    ensures performs { Codes codes.now → Performs (ethernet codes.now) calls.now answers.old buffer.old (came_to (returned_number result) answers.new buffer.new) }
    ensures refused { (Codes codes.now → ⊥) → came_to (returned_number result) answers.new buffer.new ≡ came_to (negsuc 0) answers.old buffer.old }
{
    let mut line = Ethernet::new();
    line.fill(codes).map_err(|_| Unperformed::Line)?;
    performed(line, calls, answers, buffer)
}

// The calls on a cell line, or why none is performed.
fn perform_cells(
    ports: u8,
    cell_size: u16,
    cell_time: u32,
    calls: &[u8],
    answers: &mut [u8],
    buffer: &mut [u8],
) -> Result<Performed, Unperformed>
    ensures performs { Cells ports cell_size cell_time → Performs (cells ports cell_size cell_time) calls.now answers.old buffer.old (came_to (returned_number result) answers.new buffer.new) }
    ensures refused { (Cells ports cell_size cell_time → ⊥) → came_to (returned_number result) answers.new buffer.new ≡ came_to (negsuc 0) answers.old buffer.old }
{
    let mut line = Cell::new();
    line.fill(ports, cell_size, cell_time)
        .map_err(|_| Unperformed::Line)?;
    performed(line, calls, answers, buffer)
}

// The number that a program in C gets: the only place where a refusal becomes one.
fn returned_number(outcome: Result<Performed, Unperformed>) -> i64
    ensures value { result ≡ returned_number outcome }
{
    match outcome {
        Ok(Performed { count }) => count as i64,
        Err(why) => why as i64,
    }
}

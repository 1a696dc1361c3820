// A list of calls in octets, performed on a new plan.
ghost use Rattle.std.specs.Prelude.{◌≡◌, ◌+◌, ◌*◌, ◌≤◌, ◌++◌, length, take, drop};
ghost use Rattle.std.specs.Option.{ok_or};
ghost use Rattle.plan.specs.Models.{wires};
ghost use Rattle.interface.specs.Answers.{answer_octets};
ghost use Rattle.interface.specs.Performed.{Performs, came_to, returned_number};
ghost use Rattle.interface.specs.Spoken.{calls_of, counted};

use crate::answer::{SIZE, answer_octets};
use crate::calls::Calls;
use crate::performed::Performed;
use crate::unperformed::Unperformed;
use line::Line;
use plan::{Answer, Plan};

// How many calls the octets are, if they are a list of calls: a refusal ends the fold, and `and` passes it on. Not inlined:
// within `performed` it would have the memory of the plan cleared before the octets are read, refused ones too.
#[inline(never)]
fn call_count(octets: &[u8]) -> Result<usize, Unperformed>
    ensures value { result ≡ ok_or (counted (calls_of octets.now)) Unperformed.Calls }
{
    Calls(octets).try_fold(0, |count, call| call.and(Ok(count + 1)))
}

// Writes an answer behind so many others. By its place: the library says nothing of a slice after `as_chunks_mut`.
fn write_answer(answer: Answer, index: usize, answers: &mut [u8])
    requires long { 16 * index + 16 ≤ length answers.old }
    ensures after { answers.new ≡ take (16 * index) answers.old ++ (answer_octets answer ++ drop (16 * index + 16) answers.old) }
{
    let at = SIZE * index;
    answers[at..at + SIZE].copy_from_slice(&answer_octets(answer));
}

// Performs the calls: their answers go to the front of `answers`, each gate list to the front of `buffer`.
pub(crate) fn performed<L: Line + Drop>(
    line: L,
    calls: &[u8],
    answers: &mut [u8],
    buffer: &mut [u8],
) -> Result<Performed, Unperformed>
    ensures performs { Performs (wires L.LARGEST (L.meaning line)) calls.now answers.old buffer.old (came_to (returned_number result) answers.new buffer.new) }
{
    let count = call_count(calls)?;
    if answers.len() / SIZE < count {
        return Err(Unperformed::Room);
    }
    let mut plan = Plan::new(line);
    for (index, call) in Calls(calls).enumerate() {
        write_answer(plan.call(call?, buffer), index, answers);
    }
    Ok(Performed { count })
}

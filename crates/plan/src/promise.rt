// A list of calls performed on a plan made on a line: the call that carries the promise.
ghost use Rattle.std.specs.Prelude.{◌≡◌, length, Ok, Err};
ghost use Rattle.plan.specs.Alike.{Alike};
ghost use Rattle.plan.specs.Calls.{empty};
ghost use Rattle.plan.specs.Models.{wires};
ghost use Rattle.plan.specs.Promise.{Assures, ListsFit};
ghost use Rattle.plan.specs.Steps.{after, replies, buffered};
ghost use Rattle.plan.specs.Views.{held_by};

use crate::call::{Answer, Call};
use crate::plan::Plan;
use line::Line;
use std::alloc::Global;

// The plan after a list of calls, and what each of them answered.
#[derive(Drop)]
pub struct Performed<L: Line> {
    pub plan: Plan<L>,
    pub answers: Vec<Answer>,
}

// There is no memory for the answers: no call was made, and the line comes back.
#[derive(Drop)]
pub struct NoMemory<L> {
    pub line: L,
}

// Makes a plan on a line and performs the calls on it one by one; each gate list goes to the buffer. There is room for every
// answer before the first call, so none is made whose answer is lost. The clauses speak of the line and not of the plan's,
// since without memory there is no plan.
pub fn perform<L: Line>(
    heap: Global,
    line: L,
    calls: &[Call<'_>],
    buffer: &mut [u8],
) -> Result<Performed<L>, NoMemory<L>>
    ensures answers { elim result [ Ok p ↦ p.answers.items ≡ replies (wires L.LARGEST (L.meaning line)) empty (length buffer.old) calls.now | Err _ ↦ Unit {0} ] }
    ensures line { elim result [ Ok p ↦ p.plan.line ≡ line | Err e ↦ e.line ≡ line ] }
    ensures holds { elim result [ Ok p ↦ Alike (held_by p.plan) (after (wires L.LARGEST (L.meaning line)) empty calls.now) | Err _ ↦ Unit {0} ] }
    ensures buffer { elim result [ Ok _ ↦ buffer.new ≡ buffered (wires L.LARGEST (L.meaning line)) empty buffer.old calls.now | Err _ ↦ buffer.new ≡ buffer.old ] }
    ensures assured { Assures (wires L.LARGEST (L.meaning line)) (after (wires L.LARGEST (L.meaning line)) empty calls.now) }
    ensures lists { ListsFit (wires L.LARGEST (L.meaning line)) (after (wires L.LARGEST (L.meaning line)) empty calls.now) }
{
    let Ok(mut answers) = Vec::with_capacity(heap, calls.len()) else {
        return Err(NoMemory { line });
    };
    let mut plan = Plan::new(line);
    for call in calls {
        answers.push_reserved(plan.call(*call, buffer));
    }
    Ok(Performed { plan, answers })
}

// A call given as a value.
ghost use Rattle.std.specs.Prelude.{◌≡◌, length};
ghost use Rattle.plan.specs.Alike.{Alike};
ghost use Rattle.plan.specs.Steps.{next, reply, written};
ghost use Rattle.plan.specs.Views.{held_by, wires_of};

use crate::call::{Answer, Call, Reply};
use crate::plan::Plan;
use line::Line;

impl<L: Line> Plan<L> {
    // Performs a call: a gate list goes to the buffer. Calls come as values, from octets and from lists, so a match takes them
    // apart.
    pub fn call(&mut self, call: Call<'_>, buffer: &mut [u8]) -> Answer
        ensures value { result ≡ reply (wires_of self.old) (held_by self.old) (length buffer.old) call.entry }
        ensures line { self.new.line ≡ self.old.line }
        ensures after { Alike (held_by self.new) (next (wires_of self.old) (held_by self.old) call.entry) }
        ensures buffer { buffer.new ≡ written (wires_of self.old) (held_by self.old) buffer.old call.entry }
    {
        match call {
            Call::SetUp { cycle, ports } => self.set_up(cycle, ports).map(|()| Reply::Done),
            Call::Offer { flows, index } => self.offer(flows, index).map(Reply::Start),
            Call::Withdraw { number } => self.withdraw(number).map(|()| Reply::Done),
            Call::StartOf { number } => self.start_of(number).map(Reply::Start),
            Call::Flowspan => self.flowspan().map(Reply::Span),
            Call::GateList { port } => self.gate_list(port, buffer).map(Reply::Records),
        }
    }
}

// The questions that a plan answers from its rows.
ghost use Rattle.std.specs.Prelude.{◌≡◌, Some, None, Ok, Err};
ghost use Rattle.fault.specs.declared.kinds.PlanFault.TheVariants.{NotSetUp};
ghost use Rattle.plan.specs.Calls.{start_answer, flowspan_answer};
ghost use Rattle.plan.specs.Views.{held_by, wires_of};

use crate::flowspan::flowspan;
use crate::plan::Plan;
use crate::rows::find;
use crate::setup::Setup;
use fault::PlanFault;
use line::Line;

impl<L: Line> Plan<L> {
    // What the plan was set up with.
    pub(crate) fn set_up_with(&self) -> Result<&Setup, PlanFault>
        ensures set_up { elim result [ Ok setup ↦ self.now.setup ≡ Some setup.now | Err e ↦ (self.now.setup ≡ None) × (e ≡ NotSetUp) ] }
    {
        self.setup.as_ref().ok_or(PlanFault::NotSetUp)
    }

    // The start of the flow of a number.
    pub fn start_of(&self, number: u16) -> Result<u32, PlanFault>
        ensures value { result ≡ start_answer (held_by self.now) number }
        ensures same { self.exit.now ≡ self.entry.now }
    {
        self.set_up_with()?;
        let k = find(&self.rows, number).ok_or(PlanFault::NotHeld)?;
        Ok(self.rows[k].start)
    }

    // The greatest start + total time among the held flows, or 0.
    pub fn flowspan(&self) -> Result<u32, PlanFault>
        ensures value { result ≡ flowspan_answer (wires_of self.now) (held_by self.now) }
        ensures same { self.exit.now ≡ self.entry.now }
    {
        Ok(flowspan(&self.rows, self.set_up_with()?))
    }
}

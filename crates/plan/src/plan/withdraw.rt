// The withdrawal of a flow.
ghost use Rattle.std.specs.Prelude.{◌≡◌, Ok, Err};
ghost use Rattle.plan.specs.Calls.{withdraw_answer, left};
ghost use Rattle.plan.specs.Rows.{flows};
ghost use Rattle.plan.specs.Views.{held_by};

use crate::plan::Plan;
use crate::rows::{find, no_row};
use fault::PlanFault;
use line::Line;

impl<L: Line> Plan<L> {
    // Removes the flow of a number, and frees its row.
    pub fn withdraw(&mut self, number: u16) -> Result<(), PlanFault>
        ensures value { result ≡ withdraw_answer (held_by self.old) number }
        ensures line { self.new.line ≡ self.old.line }
        ensures setup { self.new.setup ≡ self.old.setup }
        ensures after { elim result [ Ok _ ↦ flows self.new.rows ≡ left number (flows self.old.rows) | Err _ ↦ self.new.rows ≡ self.old.rows ] }
    {
        self.set_up_with()?;
        let k = find(&self.rows, number).ok_or(PlanFault::NotHeld)?;
        self.rows[k] = no_row();
        Ok(())
    }
}

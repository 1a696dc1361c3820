// The making of a plan.
ghost use Rattle.std.specs.Prelude.{◌≡◌, [], None};
ghost use Rattle.plan.specs.Rows.{flows};

use crate::plan::Plan;
use crate::rows::no_rows;
use line::Line;

impl<L: Line> Plan<L> {
    // A plan on a line: not set up, and no flow held.
    pub fn new(line: L) -> Plan<L>
        ensures line { result.line ≡ line }
        ensures setup { result.setup ≡ None }
        ensures held { flows result.rows ≡ [] }
    {
        Plan {
            line,
            setup: None,
            rows: no_rows(),
        }
    }
}

// Whether a flow fits beside the held ones, and how far it has to move.
ghost use Rattle.std.specs.Prelude.{◌≡◌, ◌+◌, ◌<◌};
ghost use Rattle.planning.specs.Overlaps.{overlaps, fits as fitting, earliest as first_fitting};
ghost use Rattle.network.specs.Overlap.{starting};
ghost use Rattle.plan.specs.Hops.{Within};
ghost use Rattle.plan.specs.Rows.{flow, flows, hop};

use crate::row::{Hop, Row, State};
use spans::{Clearance, Spans};

// A start that is tried for the flow of a row.
#[derive(Clone, Copy)]
pub(crate) struct Trial<'a> {
    pub row: &'a Row,
    pub start: u32,
    ghost below: { start < row.now.period },
}

impl Row {
    ghost use Rattle.plan.specs.Moves.{Moves, clash};

    // How far spans on a port have to move to clear a hop of this row.
    fn clears_hop(&self, at: &Hop, port: u8, moving: &Spans) -> Clearance
        requires within { Within self.now.period at.now }
        ensures moves { Moves (clash moving.now port (flow self.now) (hop at.now)) result }
    {
        if at.port != port {
            return Clearance::Clear;
        }
        moving.clearance(&self.spans(at, self.start))
    }
}

impl Trial<'_> {
    ghost use Rattle.plan.specs.Moves.{Moves, Skips, blocks, taken};

    // How far the flow has to move from the start to clear a held row.
    fn clears(&self, held: &Row) -> Clearance
        ensures moves { Moves (λ m. overlaps (starting (self.now.start + m) (flow self.now.row.now)) (flow held.now)) result }
    {
        for at in self.row.route() {
            let moving = self.row.spans(at, self.start);
            for other in held.route() {
                match held.clears_hop(other, at.port, &moving) {
                    Clearance::Clear => {}
                    met => return met,
                }
            }
        }
        Clearance::Clear
    }

    // Past a row, from the start on: the first start that its flow does not take, where one is below the period.
    fn past(&self, other: &Row) -> Option<u32>
        ensures skips { Skips (blocks other.now (flow self.now.row.now)) self.now.row.now.period self.now.start result }
    {
        if other.state == State::Free {
            return Some(self.start);
        }
        match self.clears(other) {
            Clearance::Clear => Some(self.start),
            Clearance::After(n) => {
                let at = self.start.saturating_add(n);
                if at < self.row.period { Some(at) } else { None }
            }
            Clearance::Never => None,
        }
    }

    // One look over the rows, from the start on, past each row that the flow clashes with. A loop: a closure that a
    // fold calls would owe that any start is below the period.
    fn pass(&self, rows: &[Row]) -> Option<u32>
        ensures skips { Skips (taken (flows rows.now) (flow self.now.row.now)) self.now.row.now.period self.now.start result }
    {
        let row = self.row;
        let mut start = self.start;
        for other in rows {
            start = Trial { row, start }.past(other)?;
        }
        Some(start)
    }

    // Whether the flow fits beside the held ones at the start.
    pub(crate) fn fits(&self, rows: &[Row]) -> bool
        ensures value { result ≡ fitting (flows rows.now) (starting self.now.start (flow self.now.row.now)) }
    {
        self.pass(rows) == Some(self.start)
    }
}

// The smallest start below its period at which the flow of a row fits beside the held ones, by as many looks as it takes.
pub(crate) fn earliest(rows: &[Row], row: &Row) -> Option<u32>
    ensures value { result ≡ first_fitting (flows rows.now) (flow row.now) }
{
    let mut start = 0;
    loop {
        let at = Trial { row, start }.pass(rows)?;
        if at == start {
            return Some(start);
        }
        start = at;
    }
}

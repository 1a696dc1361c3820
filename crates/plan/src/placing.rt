// The row of an offered flow, and its start beside the held ones.
ghost use Rattle.std.specs.Prelude.{◌≡◌, Some, Ok, Err};
ghost use Rattle.planning.specs.Offers.{placed, unfit};
ghost use Rattle.plan.specs.Calls.{offered};
ghost use Rattle.plan.specs.Offers.{Made};
ghost use Rattle.plan.specs.Rows.{flow as row_flow, flows};
ghost use Rattle.plan.specs.Timings.{network};

use crate::fit::{Trial, earliest};
use crate::judge::Network;
use crate::offer::Offer;
use crate::row::{Row, State};
use fault::PlanFault;
use line::Line;

impl<L: Line> Network<'_, L> {
    // The row of an offer with start 0, or the first refusal that concerns its figures. Its hops come from the timing, so this is
    // no conversion of the record.
    pub(crate) fn row(&self, offer: &Offer) -> Result<Row, PlanFault>
        ensures made { let net = network (L.meaning self.now.line.now) self.now.setup.now in elim result [ Ok row ↦ Made L.LARGEST net (offered offer.now.flow) row | Err e ↦ unfit net L.LARGEST (offered offer.now.flow) ≡ Some e ] }
    {
        let timing = self.judge(offer)?;
        let flow = &offer.flow;
        let hops = timing.hops;
        Ok(Row {
            state: State::Held,
            number: flow.number,
            length: flow.length,
            period: flow.period,
            deadline: flow.deadline,
            start: 0,
            count: flow.hops,
            hops,
        })
    }
}

// The start of the flow of a row beside the held ones: the chosen one, or the earliest.
pub(crate) fn start_beside(rows: &[Row], row: &Row, start: Option<u32>) -> Result<u32, PlanFault>
    ensures value { result ≡ placed (flows rows.now) start (row_flow row.now) }
{
    match start {
        Some(start) if start >= row.period => Err(PlanFault::Start),
        Some(start) if Trial { row, start }.fits(rows) => Ok(start),
        Some(_) => Err(PlanFault::Taken),
        None => earliest(rows, row).ok_or(PlanFault::NoStart),
    }
}

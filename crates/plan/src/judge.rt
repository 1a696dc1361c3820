// The checks of an offer that look at its figures alone, whatever flows are held.
ghost use Rattle.plan.specs.Calls.{offered};
ghost use Rattle.plan.specs.Timings.{network, Judged};

use crate::offer::Offer;
use crate::setup::Setup;
use crate::timing::Timing;
use fault::PlanFault;
use line::Line;

// The network that a plan plans for: its line, and what it was set up with.
#[derive(Drop)]
pub(crate) struct Network<'a, L: Line> {
    pub line: &'a L,
    pub setup: &'a Setup,
}

impl<L: Line> Network<'_, L> {
    // The times of an offer's route, or the first refusal that concerns its figures.
    pub(crate) fn judge(&self, offer: &Offer) -> Result<Timing, PlanFault>
        ensures judged { Judged L.LARGEST (network (L.meaning self.now.line.now) self.now.setup.now) (offered offer.now.flow) result }
    {
        let flow = &offer.flow;
        if !offer.regular(self.setup.cycle) {
            return Err(PlanFault::Period);
        }
        if let Some(hop) = offer.misrouted(self.line.ports()) {
            return Err(PlanFault::Route { hop });
        }
        if flow.length > L::LARGEST {
            return Err(PlanFault::Length);
        }
        let timing = self.timing(offer);
        if let Some(hop) = timing.overlong(offer) {
            return Err(PlanFault::WireTime { hop });
        }
        if timing.total > flow.deadline {
            return Err(PlanFault::Deadline);
        }
        Ok(timing)
    }
}

// The offer of a flow.
ghost use Rattle.std.specs.Prelude.{◌≡◌, Ok, Err};
ghost use Rattle.planning.specs.Lists.{Same};
ghost use Rattle.planning.specs.Offers.{answer};
ghost use Rattle.plan.specs.Calls.{offer_answer, offered};
ghost use Rattle.plan.specs.Offers.{Placed};
ghost use Rattle.plan.specs.Rows.{flows as held};
ghost use Rattle.plan.specs.Steps.{added};
ghost use Rattle.plan.specs.Timings.{network};
ghost use Rattle.plan.specs.Views.{held_by, wires_of};

use crate::judge::Network;
use crate::offer::Offer;
use crate::placing::start_beside;
use crate::plan::Plan;
use crate::row::Row;
use crate::rows::{find, free_row};
use crate::setup::Setup;
use fault::PlanFault;
use line::Line;
use sheet::{Reader, RecordKind};

impl<L: Line> Plan<L> {
    // A free row, and what it will hold once an offer is placed there, or the first refusal.
    fn place(&self, setup: &Setup, offer: &Offer) -> Result<(usize, Row), PlanFault>
        ensures placed { let net = network (L.meaning self.now.line) setup.now in elim result [ Ok p ↦ Placed L.LARGEST net self.now.rows (offered offer.now.flow) p.0 p.1 | Err e ↦ answer net L.LARGEST (held self.now.rows) (offered offer.now.flow) ≡ Err e ] }
    {
        let network = Network {
            line: &self.line,
            setup,
        };
        if find(&self.rows, offer.flow.number).is_some() {
            return Err(PlanFault::NumberHeld);
        }
        let Some(k) = free_row(&self.rows) else {
            return Err(PlanFault::Full);
        };
        let mut row = network.row(offer)?;
        row.start = start_beside(&self.rows, &row, offer.flow.start)?;
        Ok((k, row))
    }

    // Adds the flow of a record of a sheet, and answers its start: the chosen one, or the earliest.
    pub fn offer(&mut self, flows: &[u8], index: usize) -> Result<u32, PlanFault>
        ensures value { result ≡ offer_answer (wires_of self.old) (held_by self.old) flows.now index }
        ensures line { self.new.line ≡ self.old.line }
        ensures setup { self.new.setup ≡ self.old.setup }
        ensures after { elim result [ Ok s ↦ Same (held self.new.rows) (added (wires_of self.old) (held_by self.old) flows.now index s) | Err _ ↦ self.new.rows ≡ self.old.rows ] }
    {
        let offer = Offer {
            flow: Reader::new(flows, index).read()?,
        };
        let (k, row) = self.place(self.set_up_with()?, &offer)?;
        self.rows[k] = row;
        Ok(row.start)
    }
}

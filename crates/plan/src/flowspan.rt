// The flowspan of rows: the greatest start + total time among their flows.
ghost use Rattle.std.specs.Prelude.{◌≡◌, ◌≤◌, slice_index_or};
ghost use Rattle.line.specs.Meaning.{Meaning};
ghost use Rattle.network.specs.Flows.{total as total_time};
ghost use Rattle.planning.specs.Offers.{flowspan as greatest_end};
ghost use Rattle.planning.specs.Setups.{network, blank};
ghost use Rattle.plan.specs.Rows.{flow, flows};
ghost use Rattle.plan.specs.Setups.{setup as stored};

use crate::row::{Row, State};
use crate::setup::Setup;

impl Setup {
    // The propagation delay of a port, and 0 where there is no such port, as `port` answers.
    fn delay(&self, port: u8) -> u32
        ensures value { result ≡ (slice_index_or (stored self.now).ports port blank).delay }
        ensures most { result ≤ 100000 }
    {
        self.port(port).delay
    }
}

impl Row {
    // The total time of its flow: the last hop's offset + wire time + propagation delay.
    fn total(&self, setup: &Setup) -> u32
        ensures value { (m : Meaning) → result ≡ total_time (network m (stored setup.now)) (flow self.now).hops }
        ensures most { result ≤ 1100100000 }
    {
        match self.route().last() {
            Some(last) => last.offset + last.wire + setup.delay(last.port),
            None => 0,
        }
    }
}

// The flowspan of the flows that rows hold.
pub(crate) fn flowspan(rows: &[Row], setup: &Setup) -> u32
    ensures value { (m : Meaning) → result ≡ greatest_end (network m (stored setup.now)) (flows rows.now) }
{
    rows.iter()
        .filter(|row| row.state == State::Held)
        .map(|row| row.start + row.total(setup))
        .max()
        .unwrap_or(0)
}

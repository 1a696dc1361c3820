// An offer: a flow record that a sheet lets through, and the checks that need its figures alone.
ghost use Rattle.std.specs.Prelude.{◌≡◌, [], position, take, nat_le, ◌||◌, ◌==◌};
ghost use Rattle.std.specs.List.{enumerate_from, list_any};
ghost use Rattle.planning.specs.Offers.{regular as is_regular, misrouted as first_misrouted};
ghost use Rattle.plan.specs.Calls.{offered};
ghost use Rattle.plan.specs.Offers.{Limited};

use sheet::FlowRecord;

#[derive(Clone, Copy)]
pub(crate) struct Offer {
    pub flow: FlowRecord,
    ghost limited: { Limited flow },
}

// The index of the first port that is not one of a number of ports, or stands earlier in the route. A
// function of its own, since before a `?` the check loses what a chain answers.
fn misrouted_at(route: &[u8], ports: u8) -> Option<usize>
    ensures value { result ≡ position (λ p. nat_le ports p.1 || list_any (λ r. r == p.1) (take p.0 route.now)) (enumerate_from 0 route.now) }
{
    route
        .iter()
        .enumerate()
        .position(|(k, port)| *port >= ports || route[..k].contains(port))
}

impl Offer {
    // Whether the period divides the cycle, which holds at most 16 periods.
    pub(crate) fn regular(&self, cycle: u32) -> bool
        ensures value { result ≡ is_regular cycle self.now.flow.period }
    {
        let period = self.flow.period;
        cycle % period == 0 && cycle / period <= 16
    }

    // The first hop whose port is not one of the plan's, or stands earlier in the route.
    pub(crate) fn misrouted(&self, ports: u8) -> Option<u8>
        ensures value { result ≡ first_misrouted ports [] 0 (offered self.now.flow).route }
    {
        let k = misrouted_at(self.flow.route(), ports)?;
        Some(k as u8)
    }
}

// The times of an offer's route: each hop's offset and wire time, and the total time.
ghost use Rattle.std.specs.Prelude.{◌≡◌, map, length, position, take, nat_lt};
ghost use Rattle.planning.specs.Offers.{overlong as first_overlong};
ghost use Rattle.plan.specs.Calls.{offered};
ghost use Rattle.plan.specs.Rows.{hop};
ghost use Rattle.plan.specs.Timings.{network, Times};

use crate::judge::Network;
use crate::offer::Offer;
use crate::row::Hop;
use line::Line;

// The hops of a route, the first of them at the front, without the heap, and its total time.
#[derive(Clone, Copy)]
pub(crate) struct Timing {
    pub hops: [Hop; 8],
    pub total: u32,
}

// The index of the first hop whose wire time exceeds a period. A function of its own, since before a `?` the check loses what
// a chain answers.
fn overlong_at(hops: &[Hop], period: u32) -> Option<usize>
    ensures value { result ≡ position (λ hop. nat_lt period hop.wire) hops.now }
{
    hops.iter().position(|hop| hop.wire > period)
}

impl Timing {
    // The first hop of an offer's route whose wire time exceeds the period.
    pub(crate) fn overlong(&self, offer: &Offer) -> Option<u8>
        ensures value { result ≡ first_overlong offer.now.flow.period 0 (map hop (take (length (offered offer.now.flow).route) self.now.hops)) }
    {
        let route = offer.flow.route();
        let k = overlong_at(&self.hops[..route.len()], offer.flow.period)?;
        Some(k as u8)
    }
}

impl<L: Line> Network<'_, L> {
    // The offsets and wire times on the route of an offer, and its total time.
    pub(crate) fn timing(&self, offer: &Offer) -> Timing
        ensures times { Times L.LARGEST (network (L.meaning self.now.line.now) self.now.setup.now) (offered offer.now.flow) result }
    {
        let mut hops = [Hop::default(); 8];
        let mut offset = 0;
        let mut total = 0;
        // By the index of a hop: an invariant cannot speak of what the items of `iter_mut` leave.
        for (k, port) in offer.flow.route().iter().enumerate() {
            let wire = self.line.wire_time(*port, offer.flow.length);
            let figures = self.setup.port(*port);
            hops[k] = Hop {
                port: *port,
                offset,
                wire,
            };
            total = offset + wire + figures.delay;
            offset = total + figures.processing;
        }
        Timing { hops, total }
    }
}

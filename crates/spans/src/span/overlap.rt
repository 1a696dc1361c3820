// Whether two sets of spans share an instant, and how far one has to move until they do not.
ghost use Rattle.std.specs.Prelude.{◌≡◌, T};
ghost use Rattle.spans.specs.Formula.{shares};
ghost use Rattle.spans.specs.Overlap.{Shares, Clears};
ghost use Rattle.spans.specs.declared.span.overlap.Clearance.{Clearance as Answer};

use super::Spans;
use crate::arithmetic::{distance, gcd};

// Three answers and no Option: the spans meet in two cases of them, and callers tell these apart by name.
#[derive(Clone, Copy, PartialEq, Eq, Debug)]
pub enum Clearance {
    // they share no instant
    Clear,
    // they share one until the moving spans have moved up by this much, and then none
    After(u32),
    // they share one however far the moving spans move up
    Never,
}

impl Spans {
    // Whether any span of one shares an instant with any span of the other.
    pub fn share(&self, other: &Spans) -> bool
        ensures is { result ≡ shares self.now.first self.now.period self.now.wire other.now.first other.now.period other.now.wire }
        ensures only { T result → Shares self.now other.now }
        ensures all { Shares self.now other.now → T result }
    {
        self.clearance(other) != Clearance::Clear
    }

    // How far these spans have to move up until they share no instant with the others, which stay.
    pub fn clearance(&self, other: &Spans) -> Clearance
        ensures clears { Clears self.now other.now result }
        ensures alone { (k : Answer) → Clears self.now other.now k → k ≡ result }
    {
        if self.wire == 0 || other.wire == 0 {
            return Clearance::Clear;
        }
        let g = gcd(self.period, other.period);
        let r = distance(g, self.first, other.first);
        if u64::from(self.wire) + u64::from(other.wire) > u64::from(g) {
            Clearance::Never
        } else if r < other.wire {
            Clearance::After(other.wire - r)
        } else if g - r < self.wire {
            Clearance::After(g - r + other.wire)
        } else {
            Clearance::Clear
        }
    }
}

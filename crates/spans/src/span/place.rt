// Where a place lies between the first instants of the spans.
ghost use Rattle.std.specs.Prelude.{◌≡◌, ℕ, ◌<◌, T};
ghost use Rattle.spans.specs.Divisors.{Divides};
ghost use Rattle.spans.specs.Places.{ahead, DecidesCover, DecidesGuard};
ghost use Rattle.spans.specs.Spans.{Covers};

use super::Spans;
use crate::arithmetic::distance;

impl Spans {
    // How far the place lies after the latest first instant.
    pub fn since(&self, place: u32) -> u32
        ensures is { result ≡ ahead self.now.period place self.now.first }
        ensures below { result < self.now.period }
        ensures cover { DecidesCover self.now.first self.now.period place result }
    {
        distance(self.period, place, self.first)
    }

    // How far the place lies before the next first instant, 0 at a first instant.
    pub fn until(&self, place: u32) -> u32
        ensures is { result ≡ ahead self.now.period self.now.first place }
        ensures below { result < self.now.period }
        ensures guard { DecidesGuard self.now.first self.now.period place result }
    {
        distance(self.period, self.first, place)
    }

    // Whether some span covers the place, in every cycle that the period divides.
    pub fn covers(&self, place: u32) -> bool
        ensures only { T result → (C : ℕ) → Divides self.now.period C → place < C → Covers C self.now.first self.now.period self.now.wire place }
        ensures all { (C : ℕ) → Divides self.now.period C → place < C → Covers C self.now.first self.now.period self.now.wire place → T result }
    {
        self.since(place) < self.wire
    }
}

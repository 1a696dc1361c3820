// Spans that begin at a first instant and repeat with a period, each as long as the wire time.
ghost use Rattle.std.specs.Prelude.{◌≡◌, ◌<◌, MatchOption};

pub mod overlap;
mod place;

// Span a begins at first + a * period and lasts the wire time.
#[derive(Clone, Copy)]
pub struct Spans {
    first: u32,
    period: u32,
    wire: u32,
    ghost repeats: { 0 < period },
}

impl Spans {
    // The spans of these numbers, or none where the period is 0.
    pub fn new(first: u32, period: u32, wire: u32) -> Option<Spans>
        ensures { MatchOption result (period ≡ 0) (λ made. (0 < period) × (made.first ≡ first) × (made.period ≡ period) × (made.wire ≡ wire)) }
    {
        if period == 0 {
            return None;
        }
        Some(Spans {
            first,
            period,
            wire,
        })
    }
}

// A row of a plan: free, or one flow with its start and each hop's offset and wire time.
ghost use Rattle.std.specs.Prelude.{◌≡◌, ℕ, ◌+◌, ◌<◌, ◌≤◌, length as list_length, take, slice_index_or};
ghost use Rattle.plan.specs.Hops.{Within, blank};

use spans::Spans;

// Whether a row holds a flow. Beside the numbers, and not with the flow as its content: a further state is to come in
// which the row holds a flow too.
#[derive(Clone, Copy, PartialEq, Eq, Debug)]
pub(crate) enum State {
    Free,
    Held,
}

// One hop of a route: its port, its offset from the start, and the wire time there.
#[derive(Clone, Copy, Default)]
pub(crate) struct Hop {
    pub port: u8,
    pub offset: u32,
    pub wire: u32,
}

// The flow's numbers, and its hops at the front of `hops`: no heap, so there is room for as many as a route can have.
#[derive(Clone, Copy)]
pub(crate) struct Row {
    pub state: State,
    pub number: u16,
    pub length: u16,
    pub period: u32,
    pub deadline: u32,
    pub start: u32,
    pub count: u8,
    pub hops: [Hop; 8],
    ghost period_least: { 1 ≤ period },
    ghost period_most: { period ≤ 1000000000 },
    ghost below: { start < period },
    ghost few: { count ≤ 8 },
    ghost long: { list_length hops ≡ 8 },
    ghost within: { (k : ℕ) → k < count → Within period (slice_index_or hops k blank) },
}

impl Row {
    // The hops of its flow.
    pub(crate) fn route(&self) -> &[Hop]
        ensures hops { result.now ≡ take self.now.count self.now.hops }
        ensures within { (k : ℕ) → k < list_length result.now → Within self.now.period (slice_index_or result.now k blank) }
    {
        &self.hops[..usize::from(self.count)]
    }

    // The spans of its flow at a hop, from start s on.
    // Each caller says that the hop is within the period: a limit kept by `Hop` itself would cost its derived `Default`.
    pub(crate) fn spans(&self, at: &Hop, s: u32) -> Spans
        requires within { Within self.now.period at.now }
        requires below { s < self.now.period }
        ensures first { result.first ≡ s + at.now.offset }
        ensures period { result.period ≡ self.now.period }
        ensures wire { result.wire ≡ at.now.wire }
    {
        Spans::new(s + at.offset, self.period, at.wire).unwrap()
    }
}

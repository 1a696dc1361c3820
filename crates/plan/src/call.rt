// The calls of a plan as values, and what they answer.
use fault::PlanFault;

// One call of a plan.
#[derive(Clone, Copy)]
pub enum Call<'a> {
    SetUp { cycle: u32, ports: &'a [u8] },
    Offer { flows: &'a [u8], index: usize },
    Withdraw { number: u16 },
    StartOf { number: u16 },
    Flowspan,
    GateList { port: u8 },
}

// What a call that is done answers.
#[derive(Clone, Copy, PartialEq, Eq, Debug)]
pub enum Reply {
    Done,
    Start(u32),
    Span(u32),
    Records(usize),
}

// What a call answers: done, or refused.
pub type Answer = Result<Reply, PlanFault>;

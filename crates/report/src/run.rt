// The calls of an input performed on its line.
ghost use Rattle.std.specs.Prelude.{◌≡◌, MatchResult, IfOk, IsErr, string_bytes};
ghost use Rattle.report.specs.Listings.{refused_line};
ghost use Rattle.report.specs.Runs.{Ran, Stopped};
ghost use Rattle.report.specs.declared.run.Stop.TheVariants.{NoMemory as no_memory, Refused};

use crate::input::Input;
use crate::text::RefusedLine;
use fault::PlanFault;
use line::Ethernet;
use plan::{NoMemory, Performed, perform};
use std::alloc::{AllocError, Global};

// An input, and the plan and the answers that its calls left, without the answer to the set-up.
#[derive(Drop)]
pub(crate) struct Run<'a> {
    pub input: Input<'a>,
    pub done: Performed<Ethernet>,
}

// Why there is no run: no memory, or a refusal before any offer.
#[derive(Clone, Copy)]
pub(crate) enum Stop {
    NoMemory,
    Refused(PlanFault),
}

impl From<AllocError> for Stop {
    ghost from_gives = { λ _ stop. stop ≡ no_memory };

    fn from(_error: AllocError) -> Stop {
        Stop::NoMemory
    }
}

impl From<NoMemory<Ethernet>> for Stop {
    ghost from_gives = { λ _ stop. stop ≡ no_memory };

    fn from(_error: NoMemory<Ethernet>) -> Stop {
        Stop::NoMemory
    }
}

impl From<PlanFault> for Stop {
    ghost from_gives = { λ fault stop. stop ≡ Refused fault };

    fn from(fault: PlanFault) -> Stop {
        Stop::Refused(fault)
    }
}

impl Stop {
    // The line of a refusal.
    pub(crate) fn line(self, heap: Global) -> Result<String, AllocError>
        ensures memory { self ≡ no_memory → IsErr result }
        ensures refused { (e : PlanFault) → self ≡ Refused e → IfOk result (λ t. string_bytes t ≡ refused_line e) }
    {
        match self {
            Stop::NoMemory => Err(AllocError),
            Stop::Refused(fault) => format!(in heap; "{}", RefusedLine(fault)),
        }
    }
}

impl<'a> Run<'a> {
    // The calls of the input of these octets performed on its line.
    pub(crate) fn new(heap: Global, octets: &'a [u8]) -> Result<Run<'a>, Stop>
        ensures cases { MatchResult result (Ran octets.now) (Stopped octets.now) }
    {
        let input = Input::try_from(octets)?;
        let calls = input.calls(heap)?;
        let mut done = perform(heap, input.line, &calls, &mut [])?;
        // the answer to the set-up, whose refusal is that of the run
        done.answers.remove(0)?;
        Ok(Run { input, done })
    }
}

// The listing and the gate lists of an input.
ghost use Rattle.std.specs.Prelude.{◌≡◌, IfOk, string_bytes};
ghost use Rattle.report.specs.GateLists.{gate_lists};
ghost use Rattle.report.specs.Listings.{listing as listing_text};

use crate::gates::GateLists;
use crate::run::Run;
use crate::text::AnswerLines;
use line::Line;
use std::alloc::{AllocError, Global};

// The listing of the octets of an input: a line for each flow record and last the flowspan, or one line for a refusal before them.
pub fn listing(heap: Global, octets: &[u8]) -> Result<String, AllocError>
    ensures made { IfOk result (λ t. string_bytes t ≡ listing_text octets.now) }
{
    match Run::new(heap, octets) {
        Ok(run) => {
            let lines = AnswerLines {
                flows: run.input.flows,
                answers: &run.done.answers,
            };
            format!(in heap; "{lines}")
        }
        Err(stop) => stop.line(heap),
    }
}

// The gate lists of the octets of an input: for each port its gate records, or one line for a refusal before them.
pub fn gate_lists(heap: Global, octets: &[u8]) -> Result<String, AllocError>
    ensures made { IfOk result (λ t. string_bytes t ≡ gate_lists octets.now) }
{
    match Run::new(heap, octets) {
        Ok(run) => {
            let lists = GateLists {
                plan: &run.done.plan,
                ports: run.input.line.ports(),
            };
            format!(in heap; "{lists}")
        }
        Err(stop) => stop.line(heap),
    }
}

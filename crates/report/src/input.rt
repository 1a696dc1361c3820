// The parts of an input, and its calls.
ghost use Rattle.std.specs.Prelude.{◌≡◌, IfOk, MatchResult, Err};
ghost use Rattle.report.specs.Inputs.{calls as calls_for};
ghost use Rattle.report.specs.Runs.{input_line, Parts};

use fault::{PlanFault, SheetFault};
use line::Ethernet;
use plan::Call;
use sheet::{FlowRecord, RecordKind};
use std::alloc::{AllocError, Global};

// The cycle, the line of the ports' rate codes, the sheet of port records and the sheet of flow records.
#[derive(Clone, Copy)]
pub(crate) struct Input<'a> {
    pub cycle: u32,
    pub line: Ethernet,
    pub ports: &'a [u8],
    pub flows: &'a [u8],
}

// An input that is too short for all but its flow records.
const TOO_SHORT: SheetFault = SheetFault::Unfinished { index: 0 };

impl<'a> TryFrom<&'a [u8]> for Input<'a> {
    type Error = PlanFault;

    ghost try_from_gives = { λ octets r. MatchResult r (Parts octets.now) (λ e. input_line octets.now ≡ Err e) };

    fn try_from(octets: &'a [u8]) -> Result<Input<'a>, PlanFault> {
        let (begin, rest) = octets.split_first_chunk::<5>().ok_or(TOO_SHORT)?;
        let [a, b, c, d, count] = *begin;
        let count = usize::from(count);
        let (codes, rest) = rest.split_at_checked(count).ok_or(TOO_SHORT)?;
        let (ports, flows) = rest.split_at_checked(8 * count).ok_or(TOO_SHORT)?;
        let cycle = u32::from_be_bytes([a, b, c, d]);
        let mut line = Ethernet::new();
        line.fill(codes)?;
        Ok(Input {
            cycle,
            line,
            ports,
            flows,
        })
    }
}

impl<'a> Input<'a> {
    // The set-up, an offer for each flow record, and the question for the flowspan.
    pub(crate) fn calls(&self, heap: Global) -> Result<Vec<Call<'a>>, AllocError>
        ensures made { IfOk result (λ v. v.items ≡ calls_for self.now.cycle self.now.ports self.now.flows) }
    {
        let mut calls = Vec::new(heap);
        calls.push(Call::SetUp {
            cycle: self.cycle,
            ports: self.ports,
        })?;
        let flows = self.flows;
        let count = flows.len().div_ceil(FlowRecord::SIZE);
        calls.extend((0..count).map(|index| Call::Offer { flows, index }))?;
        calls.push(Call::Flowspan)?;
        Ok(calls)
    }
}

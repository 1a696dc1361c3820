// The gate record: the state of a port's gates and how long it lasts.
ghost use Rattle.std.specs.Prelude.{◌≡◌};
ghost use Rattle.sheet.specs.Gates.{octet_of, IsStateOf, read_gate, judge_gate, written_gate};
ghost use Rattle.sheet.specs.GatesLemmas.{gate-readback, gate-writable, gate-rewritten};
ghost use Rattle.std.proofs.Common.{rules};

use crate::kind::RecordKind;
use crate::limited::{Limited, judge};
use fault::{PlanFault, RecordFault, SheetFault};

// Which traffic classes are open.
#[derive(Clone, Copy, PartialEq, Eq, Debug)]
pub enum GateState {
    // Class 7 alone.
    Scheduled,
    // Classes 0 to 6.
    BestEffort,
    // None.
    Closed,
}

impl From<GateState> for u8 {
    ghost from_gives = { λ state octet. octet ≡ octet_of state };

    fn from(state: GateState) -> u8 {
        match state {
            GateState::Scheduled => 0x80,
            GateState::BestEffort => 0x7f,
            GateState::Closed => 0x00,
        }
    }
}

// An octet that no state has.
#[derive(Clone, Copy, PartialEq, Eq, Debug)]
pub struct UnknownState(pub u8);

impl TryFrom<u8> for GateState {
    type Error = UnknownState;

    ghost try_from_gives = { IsStateOf };

    fn try_from(octet: u8) -> Result<GateState, UnknownState> {
        match octet {
            0x80 => Ok(GateState::Scheduled),
            0x7f => Ok(GateState::BestEffort),
            0x00 => Ok(GateState::Closed),
            _ => Err(UnknownState(octet)),
        }
    }
}

#[derive(Clone, Copy, PartialEq, Eq, Debug)]
pub struct GateRecord {
    pub state: GateState,
    pub duration: u32,
}

impl RecordKind for GateRecord {
    const SIZE: usize = 5;

    ghost SIZE = { 5 };

    ghost reading = { read_gate };

    ghost judging = { judge_gate };

    ghost written = { written_gate };

    ghost some = { Prim.search rules };

    ghost whole = { Prim.search rules };

    ghost readback = { gate-readback };

    ghost writable = { gate-writable };

    ghost rewritten = { gate-rewritten };

    fn read(index: usize, octets: &[u8]) -> Result<GateRecord, RecordFault> {
        let [state, a, b, c, d] = octets else {
            return Err(RecordFault::Sheet(SheetFault::Unfinished { index }));
        };
        let word = u32::from_be_bytes([*a, *b, *c, *d]);
        if word >> 30 != 0 {
            return Err(RecordFault::NotZero { index, bit: 8 });
        }
        let Ok(state) = GateState::try_from(*state) else {
            return Err(RecordFault::OutOfLimits { index, bit: 0 });
        };
        let record = GateRecord {
            state,
            duration: word,
        };
        record.judge(index)?;
        Ok(record)
    }

    fn judge(&self, index: usize) -> Result<(), RecordFault> {
        judge(
            index,
            &[],
            &[Limited::new(10, self.duration, 1, 1_000_000_000)],
        )
    }

    fn write(&self, buffer: &mut [u8]) -> Result<(), PlanFault> {
        self.may_write(buffer)?;
        let [a, b, c, d] = self.duration.to_be_bytes();
        buffer[0..5].copy_from_slice(&[self.state.into(), a, b, c, d]);
        Ok(())
    }
}

// The port record: the propagation delay of a port, the processing delay at the node that it leads to, and its largest best-effort length.
ghost use Rattle.std.specs.Prelude.{◌≡◌};
ghost use Rattle.sheet.specs.Ports.{port_of, port_limits, read_port, judge_port, written_port};
ghost use Rattle.sheet.specs.PortsLemmas.{port-readback, port-writable, port-rewritten};
ghost use Rattle.std.proofs.Common.{rules};

use crate::field::field;
use crate::kind::RecordKind;
use crate::limited::{Limited, judge};
use fault::{PlanFault, RecordFault, SheetFault};

#[derive(Clone, Copy, PartialEq, Eq, Debug)]
pub struct PortRecord {
    pub delay: u32,
    pub processing: u32,
    pub best_effort: u16,
}

impl PortRecord {
    // The record that eight octets hold, whatever its values.
    fn from_octets(octets: &[u8; 8]) -> PortRecord
        ensures value { result ≡ port_of octets.now }
    {
        PortRecord {
            delay: field(octets, 0, 17),
            processing: field(octets, 17, 20),
            best_effort: field(octets, 37, 14) as u16,
        }
    }

    fn limits(&self) -> [Limited; 3]
        ensures value { result ≡ port_limits self.now }
    {
        [
            Limited::new(0, self.delay, 0, 100_000),
            Limited::new(17, self.processing, 0, 1_000_000),
            Limited::new(37, u32::from(self.best_effort), 64, 9_600),
        ]
    }
}

impl RecordKind for PortRecord {
    const SIZE: usize = 8;

    ghost SIZE = { 8 };

    ghost reading = { read_port };

    ghost judging = { judge_port };

    ghost written = { written_port };

    ghost some = { Prim.search rules };

    ghost whole = { Prim.search rules };

    ghost readback = { port-readback };

    ghost writable = { port-writable };

    ghost rewritten = { port-rewritten };

    fn read(index: usize, octets: &[u8]) -> Result<PortRecord, RecordFault> {
        let Ok(octets) = <&[u8; 8]>::try_from(octets) else {
            return Err(RecordFault::Sheet(SheetFault::Unfinished { index }));
        };
        let record = PortRecord::from_octets(octets);
        let spare = Limited::zero(51, field(octets, 51, 13));
        judge(index, &[spare], &record.limits())?;
        Ok(record)
    }

    fn judge(&self, index: usize) -> Result<(), RecordFault> {
        judge(index, &[], &self.limits())
    }

    fn write(&self, buffer: &mut [u8]) -> Result<(), PlanFault> {
        self.may_write(buffer)?;
        let delay = u64::from(self.delay) << 47;
        let processing = u64::from(self.processing) << 27;
        let best_effort = u64::from(self.best_effort) << 13;
        let octets = (delay + processing + best_effort).to_be_bytes();
        buffer[0..8].copy_from_slice(&octets);
        Ok(())
    }
}

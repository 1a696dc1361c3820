// The figures of the ports, as a sheet of port records tells them.
ghost use Rattle.std.specs.Prelude.{◌≡◌};
ghost use Rattle.sheet.specs.Ports.{read_port};
ghost use Rattle.sheet.specs.Sheets.{read_sheet};
ghost use Rattle.plan.specs.Figures.{Reads};

use crate::setup::Port;
use fault::PlanFault;
use sheet::{PortRecord, Reader, RecordKind, whole_records};

// How many ports the sheet has, the first 32 of them, without the heap, and the greatest best-effort length.
#[derive(Clone, Copy)]
pub(crate) struct Figures {
    pub count: usize,
    pub ports: [Port; 32],
    pub longest: u16,
}

// The figures of all records of a sheet, or the first fault.
pub(crate) fn read_ports(sheet: &[u8]) -> Result<Figures, PlanFault>
    ensures reads { Reads (read_sheet 8 read_port sheet.now) result }
{
    let count = whole_records::<PortRecord>(sheet)?;
    let mut ports = [Port::default(); 32];
    let mut longest = 0;
    // By the index of a record, which names the first faulty one.
    for k in 0..count {
        let record = Reader::new(sheet, k).read::<PortRecord>()?;
        if k < ports.len() {
            ports[k] = Port::from(record);
        }
        longest = longest.max(record.best_effort);
    }
    Ok(Figures {
        count,
        ports,
        longest,
    })
}

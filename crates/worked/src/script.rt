// The sheets of the worked case.
ghost use Rattle.std.specs.Prelude.{◌≡◌, [], ◌∷◌, length, Ok};
ghost use Rattle.sheet.specs.Flows.{written_flow};
ghost use Rattle.sheet.specs.Ports.{written_port};
ghost use Rattle.sheet.specs.Sheets.{written_sheet};
ghost use Rattle.sheet.specs.Writings.{answered_sheet, put};
ghost use Rattle.worked.specs.Case.{port as port_record, flows as flow_records};

use fault::PlanFault;
use sheet::{FlowRecord, PortRecord, RecordKind, write_sheet};

// Two ports, with delays of 100 and 1,000 ns and best-effort frames of up to 1,522 octets.
pub(crate) fn port_sheet(buffer: &mut [u8]) -> Result<usize, PlanFault>
    ensures value { result ≡ answered_sheet 16 (length buffer.old) (Ok tt) }
    ensures after { buffer.new ≡ put result 16 (written_sheet written_port (port_record ∷ port_record ∷ [])) buffer.old }
{
    let port = PortRecord {
        delay: 100,
        processing: 1_000,
        best_effort: 1_522,
    };
    write_sheet(&[port, port], buffer)
}

// Flows 7 and 9, which fit, flow 11, whose period does not divide the cycle, and flow 13, whose chosen start is taken.
pub(crate) fn flow_sheet(buffer: &mut [u8]) -> Result<usize, PlanFault>
    ensures value { result ≡ answered_sheet 84 (length buffer.old) (Ok tt) }
    ensures after { buffer.new ≡ put result 84 (written_sheet written_flow flow_records) buffer.old }
{
    let seven = FlowRecord::new(7, 100, 500_000, 20_000, &[0, 1]);
    let nine = FlowRecord::new(9, 1_000, 1_000_000, 20_000, &[1]);
    let eleven = FlowRecord::new(11, 64, 300_000, 20_000, &[0]);
    let thirteen = FlowRecord {
        start: Some(10_891),
        ..FlowRecord::new(13, 100, 500_000, 20_000, &[1])
    };
    write_sheet(&[seven, nine, eleven, thirteen], buffer)
}

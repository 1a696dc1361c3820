// The listing of a sheet: each record on a line of its own, and last the first fault.
ghost use Rattle.std.specs.Prelude.{◌≡◌, ◌++◌, [], IfOk, IsSome, string_bytes, unwrap_or};
ghost use Rattle.records.specs.Listings.{last_line, listing as listing_by, listing_of};

use crate::kind::Kind;
use crate::line::FaultLine;
use fault::RecordFault;
use sheet::{FlowRecord, GateRecord, PortRecord, Reader, RecordKind, whole_records};
use std::alloc::{AllocError, Global};
use std::fmt;

// Adds a line for each record up to the first fault, and answers that fault.
fn add_records<K: RecordKind + fmt::Display + Drop>(
    lines: &mut String,
    sheet: &[u8],
) -> Result<Option<RecordFault>, AllocError>
    requires prints { (x : K) → IsSome (K.Display.output x) }
    ensures made { IfOk result (λ fault. string_bytes lines.new ++ last_line fault ≡ string_bytes lines.old ++ listing_by K.RecordKind.SIZE K.RecordKind.reading (λ x. unwrap_or (K.Display.output x) []) sheet.now) }
{
    let count = sheet.len() / K::SIZE;
    // By the index of a record, which its fault tells.
    for index in 0..count {
        match Reader::new(sheet, index).read::<K>() {
            Ok(record) => writeln!(lines, "{record}")?,
            Err(fault) => return Ok(Some(fault)),
        }
    }
    Ok(whole_records::<K>(sheet).err().map(RecordFault::from))
}

// The lines of a sheet.
fn list_records<K: RecordKind + fmt::Display + Drop>(
    heap: Global,
    sheet: &[u8],
) -> Result<String, AllocError>
    requires prints { (x : K) → IsSome (K.Display.output x) }
    ensures made { IfOk result (λ t. string_bytes t ≡ listing_by K.RecordKind.SIZE K.RecordKind.reading (λ x. unwrap_or (K.Display.output x) []) sheet.now) }
{
    let mut lines = String::new(heap);
    if let Some(fault) = add_records::<K>(&mut lines, sheet)? {
        writeln!(lines, "{}", FaultLine(fault))?;
    }
    Ok(lines)
}

impl Kind {
    // The lines of a sheet of this kind, which is known when the program runs: a match picks the instance.
    pub fn listing(self, heap: Global, sheet: &[u8]) -> Result<String, AllocError>
        ensures made { IfOk result (λ t. string_bytes t ≡ listing_of self sheet.now) }
    {
        match self {
            Kind::Port => list_records::<PortRecord>(heap, sheet),
            Kind::Flow => list_records::<FlowRecord>(heap, sheet),
            Kind::Gate => list_records::<GateRecord>(heap, sheet),
        }
    }
}

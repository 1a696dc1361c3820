// Writing a sheet: a list of records, back to back from the front of a buffer.
ghost use Rattle.std.specs.Prelude.{◌≡◌, ◌+◌, ◌*◌, ◌≤◌, ◌++◌, length, take, drop, Ok};
ghost use Rattle.sheet.specs.RoundTrips.{Undone};
ghost use Rattle.sheet.specs.Sheets.{written_sheet, judge_from};
ghost use Rattle.sheet.specs.Writings.{answered_sheet, put};

use crate::kind::RecordKind;
use fault::{PlanFault, RecordFault};

// Whether all records may be written; the first that may not is named by its index.
fn judge_all<K: RecordKind>(records: &[K]) -> Result<(), RecordFault>
    ensures value { result ≡ judge_from K.judging 0 records.now }
{
    for (index, record) in records.iter().enumerate() {
        record.judge(index)?;
    }
    Ok(())
}

// Puts a record that may be written to its place in a buffer that is long enough. By its index: the library says nothing of a
// slice after `chunks_exact_mut`.
fn put_record<K: RecordKind>(item: &K, index: usize, buffer: &mut [u8])
    requires judged { K.judging 0 item.now ≡ Ok tt }
    requires room { index * K.SIZE + K.SIZE ≤ length buffer.old }
    ensures after { buffer.new ≡ take (index * K.SIZE) buffer.old ++ (K.written item.now ++ drop (index * K.SIZE + K.SIZE) buffer.old) }
{
    let size = K::SIZE;
    let first = index * size;
    // Judged, and with room for it, it is never refused.
    let _ = item.write(&mut buffer[first..first + size]);
}

// Puts records that may be written into a buffer that is long enough.
fn put_records<K: RecordKind>(records: &[K], buffer: &mut [u8])
    requires judged { judge_from K.judging 0 records.now ≡ Ok tt }
    requires room { length records.now * K.SIZE ≤ length buffer.old }
    ensures after { buffer.new ≡ written_sheet K.written records.now ++ drop (length records.now * K.SIZE) buffer.old }
{
    for (index, record) in records.iter().enumerate() {
        put_record(record, index, buffer);
    }
}

// Writes the records, answers how many octets they take, and leaves the octets behind them as they were.
pub fn write_sheet<K: RecordKind>(records: &[K], buffer: &mut [u8]) -> Result<usize, PlanFault>
    ensures value { result ≡ answered_sheet (length records.now * K.SIZE) (length buffer.old) (judge_from K.judging 0 records.now) }
    ensures after { buffer.new ≡ put result (length records.now * K.SIZE) (written_sheet K.written records.now) buffer.old }
    ensures undone { Undone K.SIZE K.reading K.judging K.written }
{
    judge_all(records)?;
    let size = K::SIZE;
    if records.len() > buffer.len() / size {
        return Err(PlanFault::Buffer);
    }
    put_records(records, buffer);
    Ok(records.len() * size)
}

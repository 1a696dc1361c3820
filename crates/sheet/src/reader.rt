// Reading a sheet: one record after its index, and the count of its records.
ghost use Rattle.std.specs.Prelude.{◌≡◌, ◌<◌, length, Ok, Err};
ghost use Rattle.sheet.specs.Sheets.{octets_at, read_at, record_count};

use crate::kind::RecordKind;
use fault::{RecordFault, SheetFault};

// A sheet, and the index of the record that the reader stands at.
#[derive(Clone, Copy)]
pub struct Reader<'a> {
    sheet: &'a [u8],
    index: usize,
}

impl<'a> Reader<'a> {
    pub fn new(sheet: &'a [u8], index: usize) -> Reader<'a>
        ensures sheet { result.sheet.now ≡ sheet.now }
        ensures index { result.index ≡ index }
    {
        Reader { sheet, index }
    }

    // The octets of the record, where a record has `size` octets.
    fn octets(&self, size: usize) -> Result<&'a [u8], SheetFault>
        requires some { 0 < size }
        ensures value { elim result [ Ok s ↦ Ok s.now | Err f ↦ Err f ] ≡ octets_at size self.now.index self.now.sheet.now }
    {
        if self.index >= self.sheet.len() / size {
            return Err(SheetFault::Unfinished { index: self.index });
        }
        let first = self.index * size;
        Ok(&self.sheet[first..first + size])
    }

    // The record that the reader stands at, by its kind's own reading.
    pub fn read<K: RecordKind>(&self) -> Result<K, RecordFault>
        ensures value { result ≡ read_at K.SIZE K.reading self.now.index self.now.sheet.now }
    {
        let octets = self.octets(K::SIZE)?;
        K::read(self.index, octets)
    }
}

// How many records a sheet has; one that is not whole records is refused at that count.
pub fn whole_records<K: RecordKind>(sheet: &[u8]) -> Result<usize, SheetFault>
    ensures value { result ≡ record_count K.SIZE sheet.now }
{
    let size = K::SIZE;
    let count = sheet.len() / size;
    if sheet.len() % size != 0 {
        return Err(SheetFault::Unfinished { index: count });
    }
    Ok(count)
}

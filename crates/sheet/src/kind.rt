// What a kind of record is: its size, its reading and its writing, which undo each other.
ghost use Rattle.std.specs.Prelude.{◌≡◌, ℕ, ◌<◌, ◌≤◌, List, length, Ok, OnOk, Result};
ghost use Rattle.fault.specs.declared.kinds.RecordFault.{RecordFault as Refused};
ghost use Rattle.sheet.specs.Fields.{Octets};
ghost use Rattle.sheet.specs.Writings.{answered, put};

use fault::{PlanFault, RecordFault};

pub trait RecordKind: Sized {
    // The octets of a record.
    const SIZE: usize;

    // The same number for clauses: each kind proves the two equal.
    ghost SIZE: { ℕ };

    // Record k from its octets.
    ghost reading: { ℕ → List ℕ → Result Self Refused };

    // Whether a record may be written as record k.
    ghost judging: { ℕ → Self → Result (Unit {0}) Refused };

    // The octets of a record that may be written.
    ghost written: { Self → List ℕ };

    // The record with this index in its sheet, from exactly its octets. Each kind begins with a test of its own, since it takes
    // them as an array or a pattern of its own length.
    fn read(index: usize, octets: &[u8]) -> Result<Self, RecordFault>
        ensures value { result ≡ reading index octets.now };

    // Whether the record may be written as the one with this index.
    fn judge(&self, index: usize) -> Result<(), RecordFault>
        ensures value { result ≡ judging index self.now };

    // Whether the record may be written to the buffer: it is judged first, and then the room.
    fn may_write(&self, buffer: &[u8]) -> Result<(), PlanFault>
        ensures value { result ≡ answered SIZE (length buffer.now) (judging 0 self.now) }
        ensures judged { OnOk result (judging 0 self.now ≡ Ok tt) }
        ensures room { OnOk result (SIZE ≤ length buffer.now) }
    {
        self.judge(0)?;
        if buffer.len() < Self::SIZE {
            return Err(PlanFault::Buffer);
        }
        Ok(())
    }

    // Writes the record at the front of the buffer.
    fn write(&self, buffer: &mut [u8]) -> Result<(), PlanFault>
        ensures value { result ≡ answered SIZE (length buffer.old) (judging 0 self.now) }
        ensures after { buffer.new ≡ put result SIZE (written self.now) buffer.old };

    ghost some: { 0 < SIZE };

    ghost whole: { (x : Self) → length (written x) ≡ SIZE };

    // A record reads back as it was written.
    ghost readback: { (x : Self) (j k : ℕ) → judging j x ≡ Ok tt → reading k (written x) ≡ Ok x };

    // A record that was read may be written, and writes back to its own octets.
    ghost writable: { (x : Self) (j k : ℕ) (s : List ℕ) → reading k s ≡ Ok x → judging j x ≡ Ok tt };

    ghost rewritten: { (x : Self) (k : ℕ) (s : List ℕ) → Octets s → reading k s ≡ Ok x → written x ≡ s };
}

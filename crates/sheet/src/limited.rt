// A field with its limits, and the judgment of a record by its fields.
ghost use Rattle.std.specs.Prelude.{◌≡◌};
ghost use Rattle.sheet.specs.Limits.{from_to, zero_at, is_outside, first_outside, judged};

use fault::RecordFault;

// A field of a record: its first bit, its value, and the least and the most that it may be.
#[derive(Clone, Copy)]
pub(crate) struct Limited {
    pub bit: u16,
    pub value: u32,
    pub least: u32,
    pub most: u32,
}

impl Limited {
    pub(crate) fn new(bit: u16, value: u32, least: u32, most: u32) -> Limited
        ensures value { result ≡ from_to bit value least most }
    {
        Limited {
            bit,
            value,
            least,
            most,
        }
    }

    // A field that must be zero.
    pub(crate) fn zero(bit: u16, value: u32) -> Limited
        ensures value { result ≡ zero_at bit value }
    {
        Limited::new(bit, value, 0, 0)
    }

    fn is_outside(&self) -> bool
        ensures value { result ≡ is_outside self.now }
    {
        self.value < self.least || self.value > self.most
    }
}

// The first bit of the first field outside its limits.
fn outside(fields: &[Limited]) -> Option<u16>
    ensures value { result ≡ first_outside fields.now }
{
    fields
        .iter()
        .find(|field| field.is_outside())
        .map(|field| field.bit)
}

// Whether record `index` is accepted: the fields that must be zero come first.
pub(crate) fn judge(index: usize, zeros: &[Limited], limits: &[Limited]) -> Result<(), RecordFault>
    ensures value { result ≡ judged index zeros.now limits.now }
{
    if let Some(bit) = outside(zeros) {
        return Err(RecordFault::NotZero { index, bit });
    }
    match outside(limits) {
        Some(bit) => Err(RecordFault::OutOfLimits { index, bit }),
        None => Ok(()),
    }
}

// The fields of a record, taken from its octets.
ghost use Rattle.std.specs.Prelude.{◌≡◌, ℕ, ◌+◌, ◌*◌, ◌≤◌, length};
ghost use Rattle.sheet.specs.Fields.{number, field as field_of};

// At most eight octets as one number, most significant octet first. A loop, since the bound of the number grows with each
// octet, and a closure that a fold calls would owe its bound for any number that it is given.
fn number_of(octets: &[u8]) -> u64
    requires few { length octets.now ≤ 8 }
    ensures value { result ≡ number octets.now }
{
    let mut word = 0;
    for octet in octets {
        word = word * 256 + u64::from(*octet);
    }
    word
}

// The field of `width` bits from bit `first` on.
pub(crate) fn field(octets: &[u8], first: usize, width: usize) -> u32
    requires inside { first + width ≤ 8 * length octets.now }
    requires record { length octets.now ≤ 32 }
    requires word { width ≤ 32 }
    ensures value { result ≡ field_of (length octets.now) first width octets.now }
{
    let end = first + width;
    let last = (end + 7) / 8;
    let word = number_of(&octets[first / 8..last]);
    let above = word >> (8 * last - end);
    (above % (1 << width)) as u32
}

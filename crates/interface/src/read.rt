// Calls read from octets: each function gives what stands at the front, and the octets behind it.
ghost use Rattle.std.specs.Prelude.{◌≡◌};
ghost use Rattle.interface.specs.Spoken.{turned, got, sheet_of, first_call, spoken};

use plan::Call;

// A sheet: its length in 2 octets, and its octets.
fn read_sheet(octets: &[u8]) -> Option<(&[u8], &[u8])>
    ensures value { turned (λ x. x.now) (got result) ≡ sheet_of octets.now }
{
    let (length, rest) = octets.split_first_chunk()?;
    rest.split_at_checked(u16::from_be_bytes(*length).into())
}

// The call at the front. The numbers matched are the kinds of calls in the format for C. Each arm reads its own numbers: a helper
// over their width was tried, and the check does not follow its borrows.
pub(crate) fn read_call(octets: &[u8]) -> Option<(Call<'_>, &[u8])>
    ensures value { turned spoken (got result) ≡ first_call octets.now }
{
    let (kind, rest) = octets.split_first()?;
    match *kind {
        1 => {
            let (cycle, rest) = rest.split_first_chunk()?;
            let (ports, rest) = read_sheet(rest)?;
            let cycle = u32::from_be_bytes(*cycle);
            Some((Call::SetUp { cycle, ports }, rest))
        }
        2 => {
            let (index, rest) = rest.split_first_chunk()?;
            let (flows, rest) = read_sheet(rest)?;
            let index = usize::from_be_bytes(*index);
            Some((Call::Offer { flows, index }, rest))
        }
        3 => {
            let (number, rest) = rest.split_first_chunk()?;
            let number = u16::from_be_bytes(*number);
            Some((Call::Withdraw { number }, rest))
        }
        4 => {
            let (number, rest) = rest.split_first_chunk()?;
            let number = u16::from_be_bytes(*number);
            Some((Call::StartOf { number }, rest))
        }
        5 => Some((Call::Flowspan, rest)),
        6 => {
            let (port, rest) = rest.split_first()?;
            Some((Call::GateList { port: *port }, rest))
        }
        _ => None,
    }
}

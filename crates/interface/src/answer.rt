// The 16 octets of an answer.
ghost use Rattle.std.specs.Prelude.{◌≡◌};
ghost use Rattle.interface.specs.Answers.{layer_octet, reply_octets, refusal_octets, answer_octets};

use fault::{Layer, Refusal};
use plan::{Answer, Reply};

// How many octets an answer has.
pub(crate) const SIZE: usize = 16;

// The octets of an answer. No `From` here or below: these types stand in other crates.
pub(crate) fn answer_octets(answer: Answer) -> [u8; SIZE]
    ensures value { result ≡ answer_octets answer }
{
    match answer {
        Ok(reply) => reply_octets(reply),
        Err(fault) => refusal_octets(fault.refusal()),
    }
}

// What a call that was done answers: what its number is, by the numbers of the format for C, and its number.
fn reply_octets(reply: Reply) -> [u8; SIZE]
    ensures value { result ≡ reply_octets reply }
{
    let (kind, number): (u8, u64) = match reply {
        Reply::Done => (0, 0),
        Reply::Start(start) => (1, start.into()),
        Reply::Span(span) => (2, span.into()),
        // `u64` has no `From<usize>`
        Reply::Records(count) => (3, count as u64),
    };
    let mut octets = [0; SIZE];
    octets[0] = kind;
    octets[8..].copy_from_slice(&number.to_be_bytes());
    octets
}

// The octet of a layer in the format for C.
fn layer_octet(layer: Layer) -> u8
    ensures value { result ≡ layer_octet layer }
{
    match layer {
        Layer::Sheet => 1,
        Layer::Record => 2,
        Layer::Plan => 3,
    }
}

fn refusal_octets(refusal: Refusal) -> [u8; SIZE]
    ensures value { result ≡ refusal_octets refusal }
{
    let place = refusal.place;
    let mut octets = [0; SIZE];
    octets[0] = 0xff;
    octets[1] = refusal.number;
    octets[2] = layer_octet(refusal.layer);
    octets[3] = place.hop;
    octets[4..6].copy_from_slice(&place.bit.to_be_bytes());
    octets[8..].copy_from_slice(&place.index.to_be_bytes());
    octets
}

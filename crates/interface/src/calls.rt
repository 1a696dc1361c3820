// The calls of a list of octets, one by one.
ghost use Rattle.std.specs.Prelude.{length};
ghost use Rattle.std.specs.Iterator.{at_most};
ghost use Rattle.interface.specs.Spoken.{ReadsNext};

use crate::read::read_call;
use crate::unperformed::Unperformed;
use plan::Call;

// The calls that octets hold back to back; where the octets are no call, it gives a refusal and ends.
#[derive(Drop)]
pub(crate) struct Calls<'a>(pub(crate) &'a [u8]);

impl<'a> Iterator for Calls<'a> {
    type Item = Result<Call<'a>, Unperformed>;

    ghost next_gives = { λ s r t. ReadsNext s.0.now r t.0.now };

    ghost remaining = { λ s. at_most (length s.0.now) };

    fn next(&mut self) -> Option<Result<Call<'a>, Unperformed>> {
        if self.0.is_empty() {
            return None;
        }
        let Some((call, rest)) = read_call(self.0) else {
            self.0 = &[];
            return Some(Err(Unperformed::Calls));
        };
        self.0 = rest;
        Some(Ok(call))
    }
}

// The words of a line of the input.
ghost use Rattle.std.specs.Prelude.{IfOk};
ghost use Rattle.wires.specs.Orders.{texts};
ghost use Rattle.wires.specs.Words.{Words};

use std::alloc::{AllocError, Global};

pub fn words_of(heap: Global, line: &str) -> Result<Vec<&str>, AllocError>
    ensures words { IfOk result (λ v. Words line.now (texts v.items)) }
{
    line.split_whitespace().collect(heap)
}

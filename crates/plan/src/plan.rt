// A plan on a line.
ghost use Rattle.std.specs.Prelude.{◌≡◌, length};
ghost use Rattle.network.specs.Overlap.{Overlap};
ghost use Rattle.plan.specs.Plans.{Namesakes, Two, Waiting};

mod ask;
mod call;
mod gates;
mod make;
mod offer;
mod set_up;
mod withdraw;

use crate::row::Row;
use crate::setup::Setup;
use line::Line;

// Its line, what it was set up with, and its rows: no two flows of one number, and no two spans that overlap.
// 64 rows, free or held: no heap.
// Each of its calls says by itself what it leaves of them.
#[derive(Drop)]
pub struct Plan<L: Line> {
    line: L,
    setup: Option<Setup>,
    rows: [Row; 64],
    ghost long: { length rows ≡ 64 },
    ghost numbers: { (Two Namesakes rows → ⊥) },
    ghost apart: { (Two Overlap rows → ⊥) },
    ghost waiting: { Waiting setup rows },
}

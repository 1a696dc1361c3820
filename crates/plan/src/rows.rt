// The rows of a plan: which one holds a number, and which one is free.
ghost use Rattle.std.specs.Prelude.{◌≡◌, ℕ, ◌<◌, false, [], length, MatchOption, slice_index_or};
ghost use Rattle.planning.specs.Offers.{held};
ghost use Rattle.plan.specs.Rows.{flows, none, Holds, IsFree};

use crate::row::{Hop, Row, State};

// A free row. Its numbers say nothing; the period is 1, since the type of a row asks for one.
pub(crate) fn no_row() -> Row
    ensures value { result ≡ none }
{
    Row {
        state: State::Free,
        number: 0,
        length: 0,
        period: 1,
        deadline: 0,
        start: 0,
        count: 0,
        hops: [Hop::default(); 8],
    }
}

// 64 free rows.
pub(crate) fn no_rows() -> [Row; 64]
    ensures long { length result ≡ 64 }
    ensures each { (k : ℕ) → k < 64 → slice_index_or result k none ≡ none }
    ensures flows { flows result ≡ [] }
{
    [no_row(); 64]
}

// The row that holds the flow of a number.
pub(crate) fn find(rows: &[Row], number: u16) -> Option<usize>
    ensures cases { MatchOption result (held number (flows rows.now) ≡ false) (λ k. (k < length rows.now) × Holds number (slice_index_or rows.now k none) × ((j : ℕ) → j < k → Holds number (slice_index_or rows.now j none) → ⊥)) }
{
    rows.iter()
        .position(|row| row.state == State::Held && row.number == number)
}

// A row that is free.
pub(crate) fn free_row(rows: &[Row]) -> Option<usize>
    ensures cases { MatchOption result (length (flows rows.now) ≡ length rows.now) (λ k. (k < length rows.now) × IsFree (slice_index_or rows.now k none)) }
{
    rows.iter().position(|row| row.state == State::Free)
}

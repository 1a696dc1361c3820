// What a refusal is: a sheet's fault inside a record's, a record's inside a plan's, and what each tells.
#![tactic(auto)]

mod kinds;
mod refusal;
#[cfg(test)]
mod tests;
mod text;
mod wrap;

pub use kinds::{PlanFault, RecordFault, SheetFault};
pub use refusal::{Layer, Place, Refusal};

// What a wire costs: the trait that every line keeps, and the two kinds of line that are built.
#![tactic(auto)]

mod cell;
mod ethernet;
mod figures;
mod line;
#[cfg(test)]
mod tests;

pub use cell::Cell;
pub use ethernet::{Ethernet, Rate};
pub use figures::figures_hold;
pub use line::{Line, keeps_the_rules};

// Spans that repeat: whether two sets of them share an instant, how far one set has to move until they do not, and which places of a cycle they cover and guard.
#![tactic(auto)]

mod arithmetic;
mod span;

pub use arithmetic::gcd;
pub use span::Spans;
pub use span::overlap::Clearance;

#[cfg(test)]
mod tests;

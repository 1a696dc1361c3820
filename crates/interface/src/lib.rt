// The planner for a program in C: a list of calls in octets, performed on a new plan.
#![tactic(auto)]

mod answer;
mod calls;
mod exports;
mod formats;
mod perform;
mod performed;
mod read;
mod unperformed;

pub use exports::{givrethans_perform_cells, givrethans_perform_ethernet};
pub use formats::calls_read_back;

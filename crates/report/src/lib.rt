// What is printed of an input: the listing of its flows, and the gate lists of its ports; and the program that prints it.
#![tactic(auto)]

mod gates;
mod input;
mod printed;
mod program;
mod run;
mod text;

pub use printed::{gate_lists, listing};
pub use program::{print_gate_lists, print_listing};

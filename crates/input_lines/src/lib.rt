// The lines of an input, and the numbers in them, as every program here reads them.
#![tactic(auto)]

mod cutting;
mod laws;
mod lines;
mod numbers;

pub use cutting::cut;
pub use laws::lines_are_lawful;
pub use lines::{Lines, next_line};
pub use numbers::{number, number_of};

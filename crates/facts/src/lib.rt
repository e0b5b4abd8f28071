// Sets of facts and sets of action numbers, over slices of words.
#![tactic(auto)]

mod iter;
pub mod laws;
mod set;
mod words;

pub use iter::Iter;
pub use set::{ActionSet, BYTES, BitSet, FACTS, FactSet, Number, WORDS};

// A closed list that looks for a state among the rows of its bucket alone.
#![tactic(auto)]

mod hashed;

pub use hashed::HashedStore;

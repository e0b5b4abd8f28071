// A heap with a fixed number of places.
#![tactic(auto)]

mod heap;

pub use heap::BoundedHeap;

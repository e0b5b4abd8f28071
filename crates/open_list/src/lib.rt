// The open list of a best-first planner: entries that wait to be expanded.
#![tactic(auto)]

mod bulk;
mod entry;
mod frontier;
mod queue;

pub use bulk::{drain, fill, refill};
pub use entry::{Entry, Refusal};
pub use frontier::Frontier;
pub use queue::Queue;

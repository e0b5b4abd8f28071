// Open lists that give the least entry first, by weight or by estimate.
#![tactic(auto)]

mod key;
mod ordered;
mod rank;
mod ranked;

pub use key::Key;
pub use ordered::{GreedyFrontier, OrderedFrontier, WeightedFrontier};
pub use rank::{ByEstimate, ByWeight, Rank};
pub use ranked::Ranked;

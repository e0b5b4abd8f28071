// Planning: enforced hill-climbing, then best-first, over every estimator, open list and closed list.
#![tactic(auto)]

mod best_first;
mod claims;
mod expansions;
mod hill_climbing;
mod limits;
mod model;
mod planner;
mod searcher;
mod taken;

pub use claims::answers_are_lawful;
pub use hill_climbing::LONGEST;
pub use limits::{Budgets, Limits, check_limits};
pub use model::{Refusal, Verdict};
pub use planner::{Planner, plan};
pub use searcher::Searcher;

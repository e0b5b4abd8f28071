// What an estimator is, and the simplest one.
#![tactic(auto)]

mod counting;
mod estimate;
mod estimator;
mod preference;
mod relaxation;

pub use counting::GoalCount;
pub use estimate::Estimate;
pub use estimator::Estimator;
pub use preference::{prefer_adding, prefer_applicable};
pub use relaxation::plans_relax;

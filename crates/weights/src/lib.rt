// The additive weights estimator: how many steps each fact seems away, summed over the goals.
#![tactic(auto)]

mod adding;
mod answer;
pub mod laws;
mod settling;
mod table;

pub use table::Weights;

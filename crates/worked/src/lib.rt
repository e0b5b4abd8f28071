// Worked examples: as facts that the definitions compute, and as tests that run.
#![tactic(auto)]

mod three_lifts;

pub use three_lifts::three_lifts_is_solved;

#[cfg(test)]
mod plan_tests;
#[cfg(test)]
mod replay_tests;
#[cfg(test)]
mod task_tests;
#[cfg(test)]
mod yards;

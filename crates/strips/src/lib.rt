// STRIPS tasks: what actions do to states, and the reader of task files.
#![tactic(auto)]

mod action;
mod fault;
pub mod laws;
mod problem;
mod reader;
mod steps;

pub use action::Action;
pub use fault::{Cause, Fault};
pub use problem::Task;

// What `replay` prints: a line for each action that a plan file carries out, and how it ended.
#![tactic(auto)]

mod line;
mod run;

pub use line::Line;
pub use run::Replay;

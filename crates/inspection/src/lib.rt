// What `inspect` says: a line for each estimator in a state, and what comes of each line of input.
#![tactic(auto)]

mod command;
mod moves;
mod view;

pub use command::named_action;
pub use moves::{Move, make_move};
pub use view::describe;

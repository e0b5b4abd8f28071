// What the console reads and what it says: which command a line is, and the text of a reply.
#![tactic(auto)]

mod command;
mod reply;

pub use command::{Command, parse};
pub use reply::Reply;

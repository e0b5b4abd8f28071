// The console's library call: a line in, a reply out.
#![tactic(auto)]

mod serve;

pub use serve::{Console, respond};

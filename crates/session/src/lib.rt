// Sessions: what was told, what is held and what is out, with the history of calls behind each.
#![tactic(auto)]

mod held;
mod model;
mod session;

pub use model::{Phase, Refusal};
pub use session::{Returned, Session, Slip};

#![tactic(auto)]

mod answer;
mod reader;
mod steps;
mod writer;

pub use answer::{Fault, Flaw, Refusal};
pub use reader::{Record, action_number, number_of, read, record_count, records};
pub use writer::write;

// The closed list of a planner: the states that were reached, each with the way to it.
#![tactic(auto)]

mod bulk;
mod row;
mod scanned;
mod store;
mod table;

pub use bulk::{enter_all, read_all};
pub use row::{Refusal, Row};
pub use scanned::ScannedStore;
pub use store::Store;
pub use table::{Linked, Table};

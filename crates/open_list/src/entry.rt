// A reached row that waits, with the numbers that an order may go by.
#[derive(Clone, Copy, Debug, PartialEq, Eq)]
pub struct Entry {
    pub row: u16,
    pub estimate: u16,
    pub distance: u16,
}

// Why an entry is not taken in.
#[derive(Clone, Copy, Debug, PartialEq, Eq)]
pub enum Refusal {
    Full,
}

ghost use Rattle.std.specs.Prelude.{◌≡◌};
ghost use Rattle.closed_list.specs.Refused.{refusal_number};

use facts::FactSet;
use heuristic::Estimate;

// A state that was reached: from which row, by which action, after how many actions from row 0, and its estimate.
#[derive(Clone, Copy, Debug, PartialEq, Eq)]
pub struct Row {
    pub state: FactSet,
    pub parent: u16,
    pub action: u16,
    pub distance: u16,
    pub estimate: Estimate,
}

// Why a row is not entered.
#[derive(Clone, Copy, PartialEq, Eq, Debug)]
pub enum Refusal {
    // a row has the state already
    Known = 30,
    // there are as many rows as places
    Full = 31,
}

impl Refusal {
    // The number under which the refusal is reported.
    pub fn number(&self) -> u8
        ensures value { result ≡ refusal_number self.now }
    {
        *self as u8
    }
}

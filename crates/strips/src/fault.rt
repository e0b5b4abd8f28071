ghost use Rattle.std.specs.Prelude.{◌≡◌};
ghost use Rattle.strips.specs.Numbers.{cause_number};
ghost use Rattle.strips.specs.Records.{fault};

// Why a task file is refused.
#[derive(Clone, Copy, PartialEq, Eq, Debug)]
pub enum Cause {
    // the length is 0 or no multiple of a record's
    Length = 1,
    // there are more records than a task may have
    TooManyRecords = 2,
    // a set of record 0 has a fact that is not in use
    HeaderOutside = 3,
    // a set of an action has a fact that is not in use
    ActionOutside = 4,
    // an action adds and deletes one fact
    AddsAndDeletes = 5,
}

// The first check that a task file fails, with the record and the field that fail it. Field 3 is the record as a whole.
// A field goes by its number: the first record and an action name their fields differently.
#[derive(Clone, Copy, PartialEq, Eq, Debug)]
pub struct Fault {
    pub cause: Cause,
    pub record: usize,
    pub field: u8,
}

impl Fault {
    pub(crate) fn at(cause: Cause, record: usize, field: u8) -> Fault
        ensures { result ≡ fault cause «record» field }
    {
        Fault {
            cause,
            record,
            field,
        }
    }
}

impl Cause {
    // The number under which the cause is reported.
    pub fn number(&self) -> u8
        ensures { result ≡ cause_number self.now }
    {
        *self as u8
    }
}

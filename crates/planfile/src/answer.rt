ghost use Rattle.std.specs.Prelude.{◌≡◌};
ghost use Rattle.planfile.specs.Numbers.{flaw_number, refusal_number};
ghost use Rattle.planfile.specs.declared.answer.Fault.TheVariants.{Refused};

// Why a plan file is neither read nor written.
#[derive(Clone, Copy, PartialEq, Eq, Debug)]
pub enum Refusal {
    // the start or the goal has a fact that is not in use
    OutsideFacts = 6,
    // the bytes are no whole number of records, or there are more records than a plan file may have
    FileSize = 10,
    // the buffer cannot hold the file
    BufferTooShort = 11,
}

// What is wrong with a record, or with the end of a file.
#[derive(Clone, Copy, PartialEq, Eq, Debug)]
pub enum Flaw {
    NoSuchAction = 1,
    PreconditionFalse = 2,
    // the action leads to another state than the record has
    StateDiffers = 3,
    GoalsFalse = 4,
}

// Why a file is not that of a plan, or why nothing was written.
#[derive(Clone, Copy, PartialEq, Eq, Debug)]
pub enum Fault {
    Refused(Refusal),
    // the first record that is wrong, or that cannot be written. Goals that are false are told with the number of records
    Bad { record: usize, flaw: Flaw },
}

impl From<Refusal> for Fault {
    ghost from_gives = { λ r f. f ≡ Refused r };

    fn from(refusal: Refusal) -> Fault {
        Fault::Refused(refusal)
    }
}

impl Refusal {
    // The number under which the refusal is reported.
    pub fn number(&self) -> u8
        ensures { result ≡ refusal_number self.now }
    {
        *self as u8
    }
}

impl Flaw {
    // The number under which the flaw is reported.
    pub fn number(&self) -> u8
        ensures { result ≡ flaw_number self.now }
    {
        *self as u8
    }
}

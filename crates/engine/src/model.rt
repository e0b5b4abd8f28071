// What becomes of an action, a row, a stretch and a plan call.
ghost use Rattle.std.specs.Prelude.{◌≡◌};
ghost use Rattle.engine.specs.Checks.{refusal_number};
ghost use Rattle.engine.specs.Outcomes.{verdict_of};
ghost use Rattle.engine.specs.declared.model.Halt.TheVariants.{Full as HaltFull};

use facts::FactSet;
use heuristic::Estimate;
use strips::Task;

// A task with the goals that are asked for.
#[derive(Clone, Copy)]
pub(crate) struct Problem<'t> {
    pub task: &'t Task,
    pub goal: &'t FactSet,
}

// A state with its estimate. That it is the estimate stands in the contracts, since it is that of an estimator for a task and a goal.
#[derive(Clone, Copy)]
pub(crate) struct Start {
    pub state: FactSet,
    pub steps: u16,
}

// Which actions of a row a stretch tries.
#[derive(Clone, Copy)]
pub(crate) enum Tries {
    Preferred,
    All,
}

// A row that an action entered, with its estimate.
#[derive(Clone, Copy)]
pub(crate) struct Entered {
    pub row: u16,
    pub estimate: Estimate,
}

// A row with an estimate below that of the state from which a stretch began.
#[derive(Clone, Copy)]
pub(crate) struct Better {
    pub row: u16,
    pub steps: u16,
}

// A new state met a full closed list.
#[derive(Clone, Copy)]
pub(crate) struct StoreFull;

// Why a phase stops while rows are left.
#[derive(Clone, Copy)]
pub(crate) enum Halt {
    // the budget is used
    Spent,
    // a new state met a full closed list
    Full,
}

impl From<StoreFull> for Halt {
    ghost from_gives = { λ _ halt. halt ≡ HaltFull };

    fn from(_full: StoreFull) -> Halt {
        Halt::Full
    }
}

// The verdict of a plan call. Each has a word of its own in what is told, so it is no nest of an Option in a Result.
#[derive(Clone, Copy, PartialEq, Eq, Debug)]
pub enum Verdict {
    // so many actions stand at the front of the buffer
    Plan(u16),
    // no plan exists
    None,
    // the fallback budget is used
    Spent,
    // a new state met a full closed list
    Full,
}

impl From<Result<Option<u16>, Halt>> for Verdict {
    ghost from_gives = { λ found verdict. verdict ≡ verdict_of found };

    fn from(found: Result<Option<u16>, Halt>) -> Verdict {
        match found {
            Ok(Some(len)) => Verdict::Plan(len),
            Ok(None) => Verdict::None,
            Err(Halt::Spent) => Verdict::Spent,
            Err(Halt::Full) => Verdict::Full,
        }
    }
}

// Why a plan call is refused.
#[derive(Clone, Copy, PartialEq, Eq, Debug)]
pub enum Refusal {
    // the state or the goal has a fact that is not in use
    OutsideFacts = 6,
    // the closed list has no place, or over 4,096
    StorePlaces = 7,
    // the open list has fewer places than the closed list
    FrontierPlaces = 8,
    // a budget is over 1,000,000
    Budget = 9,
}

impl Refusal {
    // The number under which the refusal is reported.
    pub fn number(&self) -> u8
        ensures value { result ≡ refusal_number self.now }
    {
        *self as u8
    }
}

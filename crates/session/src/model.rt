// Where a session stands, what is asked of it, and why it refuses.
ghost use Rattle.std.specs.Prelude.{◌≡◌};
ghost use Rattle.engine.specs.Checks.{refusal_number as plan_number};
ghost use Rattle.session.specs.Numbers.{refusal_number};
ghost use Rattle.session.specs.Verdicts.{phase_for};

use engine::{Limits, Verdict};
use facts::FactSet;

// What a session holds, and whether an order is out.
#[derive(Clone, Copy, PartialEq, Eq, Debug)]
pub enum Phase {
    // nothing was planned since the last change
    Unasked,
    // no plan exists
    Unsolvable,
    // the last plan call used its fallback budget
    Spent,
    // the last plan call met a full closed list
    Full,
    // a plan is held
    Ready,
    // a plan is held, and its first remaining action is out
    Ordered,
}

// Where a session stands after a verdict.
impl From<Verdict> for Phase {
    ghost from_gives = { λ verdict phase. phase ≡ phase_for verdict };

    fn from(verdict: Verdict) -> Phase {
        match verdict {
            Verdict::Plan(_) => Phase::Ready,
            Verdict::None => Phase::Unsolvable,
            Verdict::Spent => Phase::Spent,
            Verdict::Full => Phase::Full,
        }
    }
}

// An action, and the session that orders it.
#[derive(Clone, Copy, PartialEq, Eq)]
pub(crate) struct Order {
    pub session: u16,
    pub action: u16,
}

// A call, as the checks see it.
#[derive(Clone, Copy)]
pub(crate) enum Call {
    Correct(FactSet),
    Aim(FactSet),
    Plan(Limits),
    Issue,
    // done or not done, by the slip's order
    Report(Order),
}

// Why a call is refused.
#[derive(Clone, Copy, PartialEq, Eq, Debug)]
pub enum Refusal {
    // a set has a fact that is not in use
    OutsideFacts = 6,
    // the closed list has no place, or over 4,096
    StorePlaces = 7,
    // the open list has fewer places than the closed list
    FrontierPlaces = 8,
    // a budget is over 1,000,000
    Budget = 9,
    // the buffer cannot hold the plan file
    BufferTooShort = 11,
    // an order is out
    OrderOut = 20,
    // the slip is of another session or action, or no order is out
    WrongSlip = 21,
    // there is no action to issue, or no plan to write
    NothingToGive = 22,
}

// A refusal of the plan call, as the session tells it.
impl From<engine::Refusal> for Refusal {
    ghost from_gives = { λ refusal told. refusal_number told ≡ plan_number refusal };

    fn from(refusal: engine::Refusal) -> Refusal {
        match refusal {
            engine::Refusal::OutsideFacts => Refusal::OutsideFacts,
            engine::Refusal::StorePlaces => Refusal::StorePlaces,
            engine::Refusal::FrontierPlaces => Refusal::FrontierPlaces,
            engine::Refusal::Budget => Refusal::Budget,
        }
    }
}

impl Refusal {
    // The number under which the refusal is reported.
    pub fn number(&self) -> u8
        ensures value { result ≡ refusal_number self.now }
    {
        *self as u8
    }
}

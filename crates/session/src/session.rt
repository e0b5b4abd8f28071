// A session with a yard: the told state and goals, what is held, and the order out.
ghost use Rattle.session.specs.Account.{kept};
ghost use Rattle.session.specs.Histories.{Behind};

use crate::held::HeldPlan;
use crate::model::{Order, Phase, Refusal};
use facts::FactSet;
use strips::Task;

mod calls;
mod questions;

// A history of calls stands behind every session: its account is what the fields say.
#[derive(Drop)]
pub struct Session<'t> {
    task: &'t Task,
    number: u16,
    state: FactSet,
    goals: FactSet,
    // the phase stands beside the plan, and not around it: the engine fills the plan's array where it lies
    phase: Phase,
    plan: HeldPlan,
    ghost history: { ∥ Behind task.now number (kept state.words goals.words phase plan) ∥₁ },
}

// An order: it has to be answered by `done` or `not_done`, once.
pub struct Slip {
    order: Order,
}

// A slip that was refused, and why.
pub struct Returned {
    pub refusal: Refusal,
    pub slip: Slip,
}

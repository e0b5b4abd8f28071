ghost use Rattle.std.specs.Prelude.{◌≡◌, ℕ, Bool, List};
ghost use Rattle.facts.specs.Words.{has};
ghost use Rattle.heuristic.specs.Laws.{Laws};
ghost use Rattle.heuristic.specs.declared.estimate.Estimate.{Estimate as AnEstimate};
ghost use Rattle.strips.specs.Semantics.{State as AState};
ghost use Rattle.strips.specs.declared.action.Action.{Action as AnAction};

use crate::estimate::Estimate;
use facts::{ActionSet, FactSet};
use strips::Task;

// A heuristic: its meaning fixes, for each task, goal and state, one estimate and one set of preferred actions, and keeps the laws.
pub trait Estimator {
    ghost meaning: { List AnAction → AState → AState → AnEstimate };

    ghost prefers: { List AnAction → AState → AState → ℕ → Bool };

    // Answers the estimate, and fills the set of preferred actions.
    fn estimate(
        &mut self,
        task: &Task,
        goal: &FactSet,
        state: &FactSet,
        preferred: &mut ActionSet,
    ) -> Estimate
        ensures steps { result ≡ meaning task.now.actions.items goal.now.words state.now.words }
        ensures actions { (k : ℕ) → has preferred.new.words k ≡ prefers task.now.actions.items goal.now.words state.now.words k };

    ghost kept: { Laws meaning prefers };
}

// An estimator that is lent.
impl<E: Estimator> Estimator for &mut E {
    ghost meaning = { E.meaning };

    ghost prefers = { E.prefers };

    ghost kept = { E.kept };

    fn estimate(
        &mut self,
        task: &Task,
        goal: &FactSet,
        state: &FactSet,
        preferred: &mut ActionSet,
    ) -> Estimate {
        (**self).estimate(task, goal, state, preferred)
    }
}

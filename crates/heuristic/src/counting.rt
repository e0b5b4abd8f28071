ghost use Rattle.heuristic.specs.GoalCount.{adds_missing, goals_missing};
ghost use Rattle.heuristic.specs.GoalLaws.{goal_laws};

use crate::estimate::Estimate;
use crate::estimator::Estimator;
use crate::preference::prefer_adding;
use facts::{ActionSet, FactSet};
use strips::Task;

// The estimator that counts the goals that are missing.
#[derive(Clone, Copy)]
pub struct GoalCount {}

impl Estimator for GoalCount {
    ghost meaning = { goals_missing };

    ghost prefers = { adds_missing };

    ghost kept = { goal_laws };

    fn estimate(
        &mut self,
        task: &Task,
        goal: &FactSet,
        state: &FactSet,
        preferred: &mut ActionSet,
    ) -> Estimate {
        prefer_adding(task, state, &goal.difference(state), preferred);
        Estimate::Steps(goal.missing(state))
    }
}

ghost use Rattle.weights.specs.Weights.{all_applicable, goal_weight};
ghost use Rattle.weights.specs.Lawful.{weights_laws};

use crate::table::Weights;
use facts::{ActionSet, FactSet};
use heuristic::{Estimate, Estimator, prefer_applicable};
use strips::Task;

impl Estimator for Weights {
    ghost meaning = { goal_weight };

    ghost prefers = { all_applicable };

    ghost kept = { weights_laws };

    fn estimate(
        &mut self,
        task: &Task,
        goal: &FactSet,
        state: &FactSet,
        preferred: &mut ActionSet,
    ) -> Estimate {
        prefer_applicable(task, state, preferred);
        self.settle(task, state);
        self.total(goal)
    }
}

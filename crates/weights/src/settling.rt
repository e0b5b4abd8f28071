ghost use Rattle.std.specs.Prelude.{◌≡◌, length, nat_lt};
ghost use Rattle.weights.specs.Tables.{Capped, cost as cost_of, fact_count, total as total_of};
ghost use Rattle.weights.specs.Weights.{height, lowered, opening, pass, weights as weights_of};

use crate::adding::{lower, plus};
use crate::table::Weights;
use facts::FactSet;
use heuristic::Estimate;
use strips::{Action, Task};

impl Weights {
    // The sum of the weights of the set's facts.
    pub(crate) fn total(&self, set: &FactSet) -> Estimate
        ensures { result ≡ total_of self.now.table set.now.words fact_count }
    {
        let mut sum = Estimate::Steps(0);
        for fact in set.iter() {
            sum = plus(sum, self.table[usize::from(fact)]);
        }
        sum
    }

    // Lowers the weights of the set's facts to a cost, and says whether one fell.
    fn lower_all(&mut self, set: &FactSet, cost: Estimate) -> bool
        requires { Capped cost }
        ensures table { self.new.table ≡ lowered cost set.now.words self.old.table }
        ensures fell { result ≡ nat_lt (height self.new.table) (height self.old.table) }
    {
        let mut fell = false;
        for fact in set.iter() {
            fell |= lower(&mut self.table[usize::from(fact)], cost);
        }
        fell
    }

    // What an action costs: one step, and its preconditions' weights.
    fn cost(&self, action: &Action) -> Estimate
        ensures { result ≡ cost_of self.now.table action.now }
    {
        plus(Estimate::Steps(1), self.total(&action.pre))
    }

    // Lowers what an action adds to its cost, and says whether a weight fell.
    fn lower_by(&mut self, action: &Action) -> bool
        ensures table { self.new.table ≡ lowered (cost_of self.old.table action.now) action.now.add.words self.old.table }
        ensures fell { result ≡ nat_lt (height self.new.table) (height self.old.table) }
    {
        let cost = self.cost(action);
        self.lower_all(&action.add, cost)
    }

    // Goes through the actions once, and says whether a weight fell.
    fn sweep(&mut self, task: &Task) -> bool
        ensures table { self.new.table ≡ pass cost_of task.now.actions.items (length task.now.actions.items) self.old.table }
        ensures fell { result ≡ nat_lt (height self.new.table) (height self.old.table) }
    {
        let mut fell = false;
        for action in task.actions() {
            fell |= self.lower_by(action);
        }
        fell
    }

    // The table before any lowering: true facts weigh 0, the others never.
    fn open(&mut self, state: &FactSet)
        ensures { self.new.table ≡ opening state.now.words }
    {
        for (f, weight) in self.table.iter_mut().enumerate() {
            *weight = if state.contains(f as u8) {
                Estimate::Steps(0)
            } else {
                Estimate::Never
            };
        }
    }

    // Lowers weights until nothing falls: a sweep uses the weights that it lowered, so it takes fewer of them than rounds would.
    pub(crate) fn settle(&mut self, task: &Task, state: &FactSet)
        ensures { self.new.table ≡ weights_of task.now.actions.items state.now.words }
    {
        self.open(state);
        'settle: while self.sweep(task) {}
    }
}

ghost use Rattle.std.specs.Prelude.{◌≡◌, ℕ, length};
ghost use Rattle.std.specs.Fn.{FnReturnsAt};
ghost use Rattle.facts.specs.Words.{has};
ghost use Rattle.heuristic.specs.Useful.{applicable_here, Picks, useful};
ghost use Rattle.strips.specs.Sound.{act};

use facts::{ActionSet, FactSet};
use strips::{Action, Task};

// The actions that pass a test.
fn prefer<F: Fn(&Action) -> bool>(task: &Task, preferred: &mut ActionSet, passes: F)
    requires { F.IsAlwaysCallable passes }
    ensures { Picks (λ k. FnReturnsAt F.Fn passes (act task.now.actions.items k)) (length task.now.actions.items) preferred.new.words }
{
    *preferred = ActionSet::empty();
    for (k, action) in task.actions().iter().enumerate() {
        if passes(action) {
            preferred.insert(k as u16);
        }
    }
}

// The applicable actions that add one of the wanted facts.
pub fn prefer_adding(task: &Task, state: &FactSet, wanted: &FactSet, preferred: &mut ActionSet)
    ensures { (k : ℕ) → has preferred.new.words k ≡ useful task.now.actions.items state.now.words wanted.now.words k }
{
    prefer(
        task,
        preferred,
        |action| action.add.intersects(wanted) && action.is_applicable(state),
    );
}

// All applicable actions.
pub fn prefer_applicable(task: &Task, state: &FactSet, preferred: &mut ActionSet)
    ensures { (k : ℕ) → has preferred.new.words k ≡ applicable_here task.now.actions.items state.now.words k }
{
    prefer(task, preferred, |action| action.is_applicable(state));
}

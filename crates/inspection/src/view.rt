ghost use Rattle.std.specs.Prelude.{◌≡◌, ◌++◌, length, IfOk, string_bytes, OnOk};
ghost use Rattle.facts.specs.Words.{has};
ghost use Rattle.inspection.specs.View.{estimate_text, numbers, view};

use facts::{ActionSet, FactSet};
use heuristic::{Estimate, Estimator};
use std::alloc::{AllocError, Global};
use strips::Task;

// The name of an estimator and its estimate.
fn heading(heap: Global, name: &str, estimate: Estimate) -> Result<String, AllocError>
    ensures { IfOk result (λ t. string_bytes t ≡ name.now ++ estimate_text estimate) }
{
    match estimate {
        Estimate::Steps(n) => format!(in heap; "{name} {n} :"),
        Estimate::Never => format!(in heap; "{name} never :"),
    }
}

// Adds the numbers below `count` that are in the set, rising, a space before each.
fn list(text: &mut String, set: &ActionSet, count: u16) -> Result<(), AllocError>
    ensures { OnOk result (string_bytes text.new ≡ string_bytes text.old ++ numbers (has set.now.words) count) }
{
    for k in (0..count).filter(|k| set.contains(*k)) {
        write!(text, " {k}")?;
    }
    Ok(())
}

// The line of an estimator for a state and a goal: name, estimate and preferred actions. Four of the parameters are those of an estimate.
pub fn describe<E: Estimator>(
    heap: Global,
    name: &str,
    estimator: &mut E,
    task: &Task,
    goal: &FactSet,
    state: &FactSet,
) -> Result<String, AllocError>
    ensures { IfOk result (λ t. string_bytes t ≡ view name.now (E.Estimator.meaning task.now.actions.items goal.now.words state.now.words) (E.Estimator.prefers task.now.actions.items goal.now.words state.now.words) (length task.now.actions.items)) }
{
    let mut preferred = ActionSet::empty();
    let estimate = estimator.estimate(task, goal, state, &mut preferred);
    let mut text = heading(heap, name, estimate)?;
    list(&mut text, &preferred, task.action_count() as u16)?;
    Ok(text)
}

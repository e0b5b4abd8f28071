ghost use Rattle.std.specs.Prelude.{◌≡◌, ◌<◌, true, length, IfOk, IfErr};
ghost use Rattle.planfile.specs.Blocked.{Blocked};
ghost use Rattle.strips.specs.Semantics.{applicable, result as result_of};
ghost use Rattle.strips.specs.Sound.{act};

use crate::answer::Flaw;
use facts::FactSet;
use strips::Task;

// The state after an action, or why it cannot be carried out. The walks along records, along a list that is tested and along one that is written have this in common, and no more.
pub(crate) fn step(task: &Task, state: &FactSet, number: u16) -> Result<FactSet, Flaw>
    ensures next { IfOk result (λ t. (number < length task.now.actions.items) × (applicable (act task.now.actions.items number) state.now.words ≡ true) × (t.words ≡ result_of (act task.now.actions.items number) state.now.words)) }
    ensures blocked { IfErr result (λ f. Blocked task.now.actions.items state.now.words number f) }
{
    let action = task.action(usize::from(number)).ok_or(Flaw::NoSuchAction)?;
    if !action.is_applicable(state) {
        return Err(Flaw::PreconditionFalse);
    }
    Ok(action.apply(state))
}

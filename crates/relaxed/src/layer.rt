ghost use Rattle.std.specs.Prelude.{◌≡◌, ◌<◌, length};
ghost use Rattle.relaxed.specs.Done.{Done};
ghost use Rattle.relaxed.specs.Layers.{brings, with_adds};
ghost use Rattle.strips.specs.Sound.{act};

use facts::{ActionSet, FactSet};
use strips::{Action, Task};

// The facts of a layer, and the actions that are done: their adds are all among these facts.
#[derive(Drop)]
pub(crate) struct Layer<'t> {
    pub(crate) task: &'t Task,
    pub(crate) facts: FactSet,
    done: ActionSet,
    ghost are_done: { Done task.now.actions.items done.words facts.words },
}

impl<'t> Layer<'t> {
    // Layer 0 has the facts of the state.
    pub(crate) fn first(task: &'t Task, state: &FactSet) -> Layer<'t>
        ensures task { result.task.now ≡ task.now }
        ensures facts { result.facts.words ≡ state.now.words }
    {
        Layer {
            task,
            facts: *state,
            done: ActionSet::empty(),
        }
    }

    // Joins what action k adds where its preconditions lie in `base`, and says whether that is something new. An action that is done is not looked at again.
    pub(crate) fn join(&mut self, base: &FactSet, k: u16, action: &Action) -> bool
        requires exists { k < length self.old.task.now.actions.items }
        requires is { action.now ≡ act self.old.task.now.actions.items k }
        ensures task { self.new.task.now ≡ self.old.task.now }
        ensures facts { self.new.facts.words ≡ with_adds self.old.task.now.actions.items base.now.words k self.old.facts.words }
        ensures new { result ≡ brings self.old.task.now.actions.items base.now.words self.old.facts.words k }
    {
        if self.done.contains(k) {
            return false;
        }
        if action.add.is_subset(&self.facts) {
            self.done.insert(k);
            return false;
        }
        if !action.is_applicable(base) {
            return false;
        }
        self.facts = self.facts.union(&action.add);
        self.done.insert(k);
        true
    }
}

ghost use Rattle.std.specs.Prelude.{◌≡◌};
ghost use Rattle.strips.specs.Semantics.{applicable, result as result_of};

use crate::action::Action;
use facts::FactSet;

impl Action {
    pub fn is_applicable(&self, state: &FactSet) -> bool
        ensures { result ≡ applicable self.now state.now.words }
    {
        self.pre.is_subset(state)
    }

    // The state after the action: without what it deletes, then with what it adds.
    pub fn apply(&self, state: &FactSet) -> FactSet
        ensures { result.words ≡ result_of self.now state.now.words }
    {
        state.difference(&self.del).union(&self.add)
    }
}

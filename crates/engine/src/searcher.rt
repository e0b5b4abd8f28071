// Rows with their estimates: the step that both phases are made of.
// An action comes beside its number: a struct of the two with their task would be made for each action only to be taken apart.
ghost use Rattle.std.specs.Prelude.{◌≡◌, ℕ, ◌<◌, ◌≤◌, [], ◌∷◌, length, take};
ghost use Rattle.heuristic.specs.declared.estimate.Estimate.TheVariants.{Steps};
ghost use Rattle.closed_list.specs.Rows.{row as row_at};
ghost use Rattle.engine.specs.Generation.{Generates, IsAction, Successor, first_row, posed};
ghost use Rattle.engine.specs.Paths.{path as path_to};

use crate::model::{Entered, Problem, Start, StoreFull};
use crate::taken::Taken;
use closed_list::{Row, Store};
use facts::{ActionSet, FactSet};
use heuristic::{Estimate, Estimator};
use strips::Action;

// An estimator, and the closed list of the states that it estimated.
#[derive(Drop)]
pub struct Searcher<E, S> {
    pub estimator: E,
    pub store: S,
}

// The two while they are lent to a plan call. A contract says that the loans stay these, so that their owner knows afterwards what became of them.
#[derive(Drop)]
pub(crate) struct LentSearcher<'e, 's, E, S> {
    pub estimator: &'e mut E,
    pub store: &'s mut S,
}

// The result of the action in the state, where it is applicable.
fn successor(action: &Action, state: &FactSet) -> Option<FactSet>
    ensures result { Successor action.now state.now.words result }
{
    action.is_applicable(state).then(|| action.apply(state))
}

impl<E: Estimator, S: Store> LentSearcher<'_, '_, E, S> {
    // Enters the result of action k in the state of the row that is taken up.
    pub(crate) fn generate(
        &mut self,
        problem: Problem<'_>,
        parent: Taken,
        k: u16,
        action: &Action,
    ) -> Result<Option<Entered>, StoreFull>
        requires is { IsAction problem.task.now.actions.items k action.now }
        ensures change { Generates (posed E.meaning E.prefers problem.entry.task.now.actions.items problem.entry.goal.now.words (S.room self.old.store.now)) parent.number parent.row k (S.rows self.old.store.now) result (S.rows self.new.store.now) }
        ensures same { S.room self.new.store.now ≡ S.room self.old.store.now }
        ensures lent { (self.new.estimator.ghost_name ≡ self.old.estimator.ghost_name) × (self.new.store.ghost_name ≡ self.old.store.ghost_name) }
    {
        let Some(state) = successor(action, &parent.row.state) else {
            return Ok(None);
        };
        if let Some(_) = self.store.find(&state) {
            return Ok(None);
        }
        // before the estimate, which would be for nothing
        if self.store.count() == self.store.places() {
            return Err(StoreFull);
        }
        let mut preferred = ActionSet::empty();
        let estimate = self
            .estimator
            .estimate(problem.task, problem.goal, &state, &mut preferred);
        let entered = self.store.enter(Row {
            state,
            parent: parent.number,
            action: k,
            distance: parent.row.distance + 1,
            estimate,
        });
        let Ok(row) = entered else {
            unreachable!();
        };
        Ok(Some(Entered { row, estimate }))
    }

    // Makes the state the only row.
    pub(crate) fn fresh(&mut self, start: Start)
        requires some { 0 < S.room self.old.store.now }
        ensures rows { S.rows self.new.store.now ≡ first_row start.state (Steps start.steps) ∷ [] }
        ensures same { S.room self.new.store.now ≡ S.room self.old.store.now }
        ensures lent { (self.new.estimator.ghost_name ≡ self.old.estimator.ghost_name) × (self.new.store.ghost_name ≡ self.old.store.ghost_name) }
    {
        self.store.clear();
        let entered = self.store.enter(Row {
            state: start.state,
            parent: 0,
            action: 0,
            distance: 0,
            estimate: Estimate::Steps(start.steps),
        });
        if entered.is_err() {
            unreachable!();
        }
    }

    // Writes the actions on the way to row j, and answers how many there are.
    pub(crate) fn write_path(&self, j: u16, out: &mut [u16]) -> u16
        requires there { j < length (S.rows self.now.store.now) }
        requires parents { (i : ℕ) → i < length (S.rows self.now.store.now) → (row_at (S.rows self.now.store.now) i).parent < length (S.rows self.now.store.now) }
        requires fits { (row_at (S.rows self.now.store.now) j).distance ≤ length out.old }
        ensures path { take result out.new ≡ path_to (S.rows self.now.store.now) j }
        ensures far { result ≡ (row_at (S.rows self.now.store.now) j).distance }
    {
        let Some(mut at) = self.store.row(j) else {
            unreachable!();
        };
        let far = at.distance;
        // from the end, since a row says only which row comes before it; no proof is had over a reversed iterator that writes
        for d in (0..far).rev() {
            out[d as usize] = at.action;
            let Some(parent) = self.store.row(at.parent) else {
                unreachable!();
            };
            at = parent;
        }
        far
    }
}

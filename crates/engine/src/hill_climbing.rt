// The hill phase.
ghost use Rattle.std.specs.Prelude.{◌≡◌, ℕ, ◌<◌, ◌≤◌, true, [], ◌∷◌, length, IfSome};
ghost use Rattle.heuristic.specs.declared.estimate.Estimate.TheVariants.{Steps};
ghost use Rattle.closed_list.specs.Rows.{row as row_at};
ghost use Rattle.engine.specs.Checks.{HasPlaces};
ghost use Rattle.engine.specs.Generation.{IsAction, posed, root};
ghost use Rattle.engine.specs.HillClimbing.{Climbs, Ended, Leg, Tops, Tried, is_tried, listed, longest, wanted};

use crate::expansions::Expansions;
use crate::model::{Better, Halt, Problem, Start, StoreFull, Tries};
use crate::searcher::LentSearcher;
use crate::taken::Taken;
use closed_list::Store;
use facts::{ActionSet, FactSet};
use heuristic::{Estimate, Estimator};
use strips::Action;

// the most actions of a plan
pub const LONGEST: usize = 4095;

// Whether action k is among those that are tried; without a set all are.
fn is_wanted(liked: &Option<ActionSet>, k: u16) -> bool
    ensures { result ≡ wanted liked.now k }
{
    liked.as_ref().is_none_or(|set| set.contains(k))
}

impl<E: Estimator, S: Store> LentSearcher<'_, '_, E, S> {
    // The actions that are tried in the state; none where all are.
    fn choose(&mut self, problem: Problem<'_>, tries: Tries, state: &FactSet) -> Option<ActionSet>
        ensures chosen { (k : ℕ) → wanted result k ≡ is_tried (E.prefers problem.entry.task.now.actions.items problem.entry.goal.now.words) tries state.now.words k }
        ensures same { self.new.store.now ≡ self.old.store.now }
        ensures lent { (self.new.estimator.ghost_name ≡ self.old.estimator.ghost_name) × (self.new.store.ghost_name ≡ self.old.store.ghost_name) }
    {
        match tries {
            Tries::All => None,
            Tries::Preferred => {
                let mut preferred = ActionSet::empty();
                self.estimator
                    .estimate(problem.task, problem.goal, state, &mut preferred);
                Some(preferred)
            }
        }
    }

    // Tries action k in the state of the row that is taken up. It parts from what the other phase does once a row is entered.
    fn attempt(
        &mut self,
        problem: Problem<'_>,
        bound: u16,
        parent: Taken,
        k: u16,
        action: &Action,
    ) -> Result<Option<Better>, StoreFull>
        requires is { IsAction problem.task.now.actions.items k action.now }
        ensures change { (tries : _) → is_tried (E.prefers problem.entry.task.now.actions.items problem.entry.goal.now.words) tries parent.row.state.words k ≡ true → Tried (posed E.meaning E.prefers problem.entry.task.now.actions.items problem.entry.goal.now.words (S.room self.old.store.now)) tries bound parent.number parent.row k (S.rows self.old.store.now) result (S.rows self.new.store.now) }
        ensures same { S.room self.new.store.now ≡ S.room self.old.store.now }
        ensures lent { (self.new.estimator.ghost_name ≡ self.old.estimator.ghost_name) × (self.new.store.ghost_name ≡ self.old.store.ghost_name) }
    {
        let Some(entered) = self.generate(problem, parent, k, action)? else {
            return Ok(None);
        };
        match entered.estimate {
            Estimate::Steps(steps) if steps < bound => Ok(Some(Better {
                row: entered.row,
                steps,
            })),
            _ => Ok(None),
        }
    }

    // Expands the row that is taken up, as far as a result that is better than `bound`.
    fn climb(
        &mut self,
        problem: Problem<'_>,
        tries: Tries,
        bound: u16,
        parent: Taken,
    ) -> Result<Option<Better>, StoreFull>
        ensures change { Tops (posed E.meaning E.prefers problem.entry.task.now.actions.items problem.entry.goal.now.words (S.room self.old.store.now)) tries bound parent.number parent.row (S.rows self.old.store.now) result (S.rows self.new.store.now) }
        ensures same { S.room self.new.store.now ≡ S.room self.old.store.now }
        ensures lent { (self.new.estimator.ghost_name ≡ self.old.estimator.ghost_name) × (self.new.store.ghost_name ≡ self.old.store.ghost_name) }
    {
        let liked = self.choose(problem, tries, &parent.row.state);
        for (k, action) in problem.task.actions().iter().enumerate() {
            if !is_wanted(&liked, k as u16) {
                continue;
            }
            if let Some(better) = self.attempt(problem, bound, parent, k as u16, action)? {
                return Ok(Some(better));
            }
        }
        Ok(None)
    }

    // Takes up the rows in the order of their numbers, as far as one that leads to a better row.
    fn take_up(
        &mut self,
        problem: Problem<'_>,
        tries: Tries,
        bound: u16,
        expansions: &mut Expansions,
    ) -> Result<Option<Better>, Halt>
        requires places { HasPlaces (S.room self.old.store.now) }
        requires begun { S.rows self.old.store.now ≡ root (posed E.meaning E.prefers problem.task.now.actions.items problem.goal.now.words (S.room self.old.store.now)) (row_at (S.rows self.old.store.now) 0).state.words ∷ [] }
        ensures ended { Ended (posed E.meaning E.prefers problem.entry.task.now.actions.items problem.entry.goal.now.words (S.room self.old.store.now)) tries bound expansions.old.budget expansions.old.count (row_at (S.rows self.old.store.now) 0).state.words result (S.rows self.new.store.now) expansions.new.count }
        ensures same { S.room self.new.store.now ≡ S.room self.old.store.now }
        ensures lent { (self.new.estimator.ghost_name ≡ self.old.estimator.ghost_name) × (self.new.store.ghost_name ≡ self.old.store.ghost_name) }
        ensures budget { expansions.new.budget ≡ expansions.old.budget }
    {
        // by number, since rows are entered meanwhile
        for number in 0..self.store.places() as u16 {
            let Some(row) = self.store.row(number) else {
                return Ok(None);
            };
            if let Estimate::Never = row.estimate {
                continue;
            }
            expansions.count_one()?;
            if let Some(better) = self.climb(problem, tries, bound, Taken { number, row })? {
                return Ok(Some(better));
            }
        }
        Ok(None)
    }

    // One stretch from the state.
    fn stretch(
        &mut self,
        problem: Problem<'_>,
        tries: Tries,
        start: Start,
        expansions: &mut Expansions,
    ) -> Result<Option<Better>, Halt>
        requires places { HasPlaces (S.room self.old.store.now) }
        requires told { E.meaning problem.task.now.actions.items problem.goal.now.words start.state.words ≡ Steps start.steps }
        ensures ended { Ended (posed E.meaning E.prefers problem.entry.task.now.actions.items problem.entry.goal.now.words (S.room self.old.store.now)) tries start.steps expansions.old.budget expansions.old.count start.state.words result (S.rows self.new.store.now) expansions.new.count }
        ensures same { S.room self.new.store.now ≡ S.room self.old.store.now }
        ensures lent { (self.new.estimator.ghost_name ≡ self.old.estimator.ghost_name) × (self.new.store.ghost_name ≡ self.old.store.ghost_name) }
        ensures budget { expansions.new.budget ≡ expansions.old.budget }
    {
        self.fresh(start);
        self.take_up(problem, tries, start.steps, expansions)
    }

    // A stretch with the preferred actions and, where its rows run out, once more with all.
    fn leg(
        &mut self,
        problem: Problem<'_>,
        start: Start,
        expansions: &mut Expansions,
    ) -> Result<Option<Better>, Halt>
        requires places { HasPlaces (S.room self.old.store.now) }
        requires told { E.meaning problem.task.now.actions.items problem.goal.now.words start.state.words ≡ Steps start.steps }
        ensures leg { Leg (posed E.meaning E.prefers problem.entry.task.now.actions.items problem.entry.goal.now.words (S.room self.old.store.now)) start.steps expansions.old.budget expansions.old.count start.state.words result (S.rows self.new.store.now) expansions.new.count }
        ensures same { S.room self.new.store.now ≡ S.room self.old.store.now }
        ensures lent { (self.new.estimator.ghost_name ≡ self.old.estimator.ghost_name) × (self.new.store.ghost_name ≡ self.old.store.ghost_name) }
        ensures budget { expansions.new.budget ≡ expansions.old.budget }
    {
        if let Some(better) = self.stretch(problem, Tries::Preferred, start, expansions)? {
            return Ok(Some(better));
        }
        self.stretch(problem, Tries::All, start, expansions)
    }

    // Climbs from the state to one with all goals. The joined list stands at the front of `out`.
    pub(crate) fn hill(
        &mut self,
        problem: Problem<'_>,
        start: Start,
        expansions: &mut Expansions,
        out: &mut [u16],
    ) -> Option<u16>
        requires places { HasPlaces (S.room self.old.store.now) }
        requires fits { length out.old ≡ longest }
        requires told { E.meaning problem.task.now.actions.items problem.goal.now.words start.state.words ≡ Steps start.steps }
        requires above { 0 < start.steps }
        requires begun { expansions.old.count ≡ 0 }
        ensures climbs { Climbs (posed E.meaning E.prefers problem.entry.task.now.actions.items problem.entry.goal.now.words (S.room self.old.store.now)) expansions.old.budget start.state.words (listed result out.new) expansions.new.count }
        ensures sized { IfSome result (λ n. n ≤ longest) }
        ensures same { S.room self.new.store.now ≡ S.room self.old.store.now }
        ensures lent { (self.new.estimator.ghost_name ≡ self.old.estimator.ghost_name) × (self.new.store.ghost_name ≡ self.old.store.ghost_name) }
    {
        let mut from = start;
        let mut len = 0u16;
        // it counts nothing, and ends in the middle of a stretch
        'stretches: loop {
            let Ok(end) = self.leg(problem, from, expansions) else {
                return None;
            };
            let Some(better) = end else {
                return None;
            };
            let Some(at) = self.store.row(better.row) else {
                unreachable!();
            };
            if at.distance > LONGEST as u16 - len {
                return None;
            }
            len += self.write_path(better.row, &mut out[len as usize..]);
            if better.steps == 0 {
                return Some(len);
            }
            from = Start {
                state: at.state,
                steps: better.steps,
            };
        }
    }
}

// The complete best-first phase.
ghost use Rattle.std.specs.Prelude.{◌≡◌, ◌<◌, ◌≤◌, length};
ghost use Rattle.heuristic.specs.declared.estimate.Estimate.TheVariants.{Steps};
ghost use Rattle.closed_list.specs.Rows.{row as row_at};
ghost use Rattle.engine.specs.Answers.{Searched, Sized, said};
ghost use Rattle.engine.specs.BestFirst.{Considers, Expands, Explored};
ghost use Rattle.engine.specs.Checks.{HasPlaces};
ghost use Rattle.engine.specs.Generation.{IsAction, posed};
ghost use Rattle.engine.specs.HillClimbing.{longest};
ghost use Rattle.engine.specs.Outcomes.{verdict_of};

use crate::expansions::Expansions;
use crate::model::{Halt, Problem, Start, StoreFull};
use crate::planner::LentPlanner;
use crate::taken::Taken;
use closed_list::Store;
use heuristic::{Estimate, Estimator};
use open_list::{Entry, Frontier};
use strips::Action;

impl<E: Estimator, F: Frontier, S: Store> LentPlanner<'_, '_, '_, E, F, S> {
    // Treats action k in the state of the row that is taken up: answers the row that has all goals, where it enters that.
    fn consider(
        &mut self,
        problem: Problem<'_>,
        parent: Taken,
        k: u16,
        action: &Action,
    ) -> Result<Option<u16>, StoreFull>
        requires is { IsAction problem.task.now.actions.items k action.now }
        requires fits { length (F.waiting self.old.frontier.now) < length (S.rows self.old.searcher.store.now) }
        requires holds { S.room self.old.searcher.store.now ≤ F.room self.old.frontier.now }
        ensures change { Considers (posed E.meaning E.prefers problem.entry.task.now.actions.items problem.entry.goal.now.words (S.room self.old.searcher.store.now)) parent.number parent.row k (S.rows self.old.searcher.store.now) (F.waiting self.old.frontier.now) result (S.rows self.new.searcher.store.now) (F.waiting self.new.frontier.now) }
        ensures store_room { S.room self.new.searcher.store.now ≡ S.room self.old.searcher.store.now }
        ensures frontier_room { F.room self.new.frontier.now ≡ F.room self.old.frontier.now }
        ensures lent { (self.new.searcher.estimator.ghost_name ≡ self.old.searcher.estimator.ghost_name) × (self.new.searcher.store.ghost_name ≡ self.old.searcher.store.ghost_name) × (self.new.frontier.ghost_name ≡ self.old.frontier.ghost_name) }
    {
        let Some(entered) = self.searcher.generate(problem, parent, k, action)? else {
            return Ok(None);
        };
        let Estimate::Steps(estimate) = entered.estimate else {
            return Ok(None);
        };
        if estimate == 0 {
            return Ok(Some(entered.row));
        }
        let put = self.frontier.put(Entry {
            row: entered.row,
            estimate,
            distance: parent.row.distance + 1,
        });
        if put.is_err() {
            unreachable!();
        }
        Ok(None)
    }

    // Expands the row that is taken up with all applicable actions in rising number.
    fn expand(&mut self, problem: Problem<'_>, parent: Taken) -> Result<Option<u16>, StoreFull>
        requires fits { length (F.waiting self.old.frontier.now) < length (S.rows self.old.searcher.store.now) }
        requires holds { S.room self.old.searcher.store.now ≤ F.room self.old.frontier.now }
        ensures change { Expands (posed E.meaning E.prefers problem.entry.task.now.actions.items problem.entry.goal.now.words (S.room self.old.searcher.store.now)) parent.number parent.row (S.rows self.old.searcher.store.now) (F.waiting self.old.frontier.now) result (S.rows self.new.searcher.store.now) (F.waiting self.new.frontier.now) }
        ensures store_room { S.room self.new.searcher.store.now ≡ S.room self.old.searcher.store.now }
        ensures frontier_room { F.room self.new.frontier.now ≡ F.room self.old.frontier.now }
        ensures lent { (self.new.searcher.estimator.ghost_name ≡ self.old.searcher.estimator.ghost_name) × (self.new.searcher.store.ghost_name ≡ self.old.searcher.store.ghost_name) × (self.new.frontier.ghost_name ≡ self.old.frontier.ghost_name) }
    {
        for (k, action) in problem.task.actions().iter().enumerate() {
            if let Some(reached) = self.consider(problem, parent, k as u16, action)? {
                return Ok(Some(reached));
            }
        }
        Ok(None)
    }

    // Expands rows until an answer is found.
    fn run(
        &mut self,
        problem: Problem<'_>,
        expansions: &mut Expansions,
        out: &mut [u16],
    ) -> Result<Option<u16>, Halt>
        requires begun { Explored (posed E.meaning E.prefers problem.task.now.actions.items problem.goal.now.words (S.room self.old.searcher.store.now)) expansions.old.budget (row_at (S.rows self.old.searcher.store.now) 0).state.words (S.rows self.old.searcher.store.now) (F.waiting self.old.frontier.now) expansions.old.count }
        requires places { HasPlaces (S.room self.old.searcher.store.now) }
        requires holds { S.room self.old.searcher.store.now ≤ F.room self.old.frontier.now }
        requires fits { longest ≤ length out.old }
        ensures answer { Searched (posed E.meaning E.prefers problem.entry.task.now.actions.items problem.entry.goal.now.words (S.room self.old.searcher.store.now)) expansions.old.budget (row_at (S.rows self.old.searcher.store.now) 0).state.words (said (verdict_of result) out.new) expansions.new.count }
        ensures sized { Sized (verdict_of result) }
        ensures store_room { S.room self.new.searcher.store.now ≡ S.room self.old.searcher.store.now }
        ensures frontier_room { F.room self.new.frontier.now ≡ F.room self.old.frontier.now }
        ensures lent { (self.new.searcher.estimator.ghost_name ≡ self.old.searcher.estimator.ghost_name) × (self.new.searcher.store.ghost_name ≡ self.old.searcher.store.ghost_name) × (self.new.frontier.ghost_name ≡ self.old.frontier.ghost_name) }
    {
        while self.frontier.count() != 0 {
            expansions.count_one()?;
            let Some(entry) = self.frontier.take() else {
                unreachable!();
            };
            let Some(row) = self.searcher.store.row(entry.row) else {
                unreachable!();
            };
            let parent = Taken {
                number: entry.row,
                row,
            };
            if let Some(reached) = self.expand(problem, parent)? {
                return Ok(Some(self.searcher.write_path(reached, out)));
            }
        }
        Ok(None)
    }

    // Searches from the state, whose estimate is above 0: answers the length of the plan at the front of `out`, or that there is none.
    pub(crate) fn fallback(
        &mut self,
        problem: Problem<'_>,
        start: Start,
        expansions: &mut Expansions,
        out: &mut [u16],
    ) -> Result<Option<u16>, Halt>
        requires places { HasPlaces (S.room self.old.searcher.store.now) }
        requires holds { S.room self.old.searcher.store.now ≤ F.room self.old.frontier.now }
        requires fits { longest ≤ length out.old }
        requires told { E.meaning problem.task.now.actions.items problem.goal.now.words start.state.words ≡ Steps start.steps }
        requires above { 0 < start.steps }
        requires begun { expansions.old.count ≡ 0 }
        ensures answer { Searched (posed E.meaning E.prefers problem.entry.task.now.actions.items problem.entry.goal.now.words (S.room self.old.searcher.store.now)) expansions.old.budget start.state.words (said (verdict_of result) out.new) expansions.new.count }
        ensures sized { Sized (verdict_of result) }
        ensures store_room { S.room self.new.searcher.store.now ≡ S.room self.old.searcher.store.now }
        ensures frontier_room { F.room self.new.frontier.now ≡ F.room self.old.frontier.now }
        ensures lent { (self.new.searcher.estimator.ghost_name ≡ self.old.searcher.estimator.ghost_name) × (self.new.searcher.store.ghost_name ≡ self.old.searcher.store.ghost_name) × (self.new.frontier.ghost_name ≡ self.old.frontier.ghost_name) }
    {
        self.searcher.fresh(start);
        self.frontier.clear();
        let put = self.frontier.put(Entry {
            row: 0,
            estimate: start.steps,
            distance: 0,
        });
        if put.is_err() {
            unreachable!();
        }
        self.run(problem, expansions, out)
    }
}

// The plan call.
ghost use Rattle.std.specs.Prelude.{◌≡◌, ℕ, ◌<◌, ◌≤◌, true, length, IfOk, OnErr, OnOk};
ghost use Rattle.facts.specs.Checks.{fault_in};
ghost use Rattle.facts.specs.Words.{subset};
ghost use Rattle.engine.specs.Answers.{Decides, Excludes, MayAnswer, Past, Plans, Sized, said};
ghost use Rattle.engine.specs.Checks.{HasPlaces, refusal};
ghost use Rattle.engine.specs.Generation.{posed};
ghost use Rattle.engine.specs.HillClimbing.{longest};
ghost use Rattle.engine.specs.Reach.{AtMost};

use crate::expansions::Expansions;
use crate::hill_climbing::LONGEST;
use crate::limits::{Budgets, Limits, check_limits};
use crate::model::{Problem, Refusal, Start, Verdict};
use crate::searcher::{LentSearcher, Searcher};
use closed_list::Store;
use facts::{ActionSet, FactSet};
use heuristic::{Estimate, Estimator};
use open_list::Frontier;
use strips::Task;

// An estimator with the two tables of a search. Any tables will do: each plan call checks whether their places serve, so the type asks for nothing.
#[derive(Drop)]
pub struct Planner<E, F, S> {
    pub searcher: Searcher<E, S>,
    pub frontier: F,
}

// A planner while its parts are lent to a plan call.
#[derive(Drop)]
pub(crate) struct LentPlanner<'e, 'f, 's, E, F, S> {
    pub searcher: LentSearcher<'e, 's, E, S>,
    pub frontier: &'f mut F,
}

// All checks of a plan call, in their order.
#[tactic(auto, unfolding(crate::specs::Checks::refusal))]
fn check(problem: Problem<'_>, state: &FactSet, limits: &Limits) -> Result<(), Refusal>
    ensures first { fault_in result ≡ refusal problem.entry.task.now.facts.words state.now.words problem.entry.goal.now.words limits.now.store limits.now.frontier limits.now.budgets.hill limits.now.budgets.fallback }
    ensures passed { OnOk result (HasPlaces limits.now.store × (limits.now.store ≤ limits.now.frontier)) }
    ensures within { OnOk result ((subset state.now.words problem.entry.task.now.facts.words ≡ true) × (subset problem.entry.goal.now.words problem.entry.task.now.facts.words ≡ true)) }
{
    if !problem.task.admits(state) {
        return Err(Refusal::OutsideFacts);
    }
    if !problem.task.admits(problem.goal) {
        return Err(Refusal::OutsideFacts);
    }
    check_limits(limits)
}

// Hands the list of a plan over, and nothing where there is none.
fn deliver(verdict: Verdict, list: &[u16], buffer: &mut [u16])
    requires sized { Sized verdict }
    requires fits { longest ≤ length list.now }
    requires same { length buffer.old ≡ length list.now }
    ensures answer { said verdict buffer.new ≡ said verdict list.now }
    ensures past { Past verdict buffer.old buffer.new }
{
    if let Verdict::Plan(len) = verdict {
        let len = usize::from(len);
        buffer[..len].copy_from_slice(&list[..len]);
    }
}

impl<E: Estimator, F: Frontier, S: Store> LentPlanner<'_, '_, '_, E, F, S> {
    // Plans from `state`, the checks passed; the list of a plan stands at the front of `list`.
    fn answer(
        &mut self,
        problem: Problem<'_>,
        state: &FactSet,
        budgets: Budgets,
        list: &mut [u16],
    ) -> (Verdict, u32, u32)
        requires places { HasPlaces (S.room self.old.searcher.store.now) }
        requires holds { S.room self.old.searcher.store.now ≤ F.room self.old.frontier.now }
        requires fits { length list.old ≡ longest }
        ensures may { MayAnswer (posed E.meaning E.prefers problem.entry.task.now.actions.items problem.entry.goal.now.words (S.room self.old.searcher.store.now)) budgets.hill budgets.fallback state.now.words (said result.0 list.new) result.1 result.2 }
        ensures sized { Sized result.0 }
        ensures store_room { S.room self.new.searcher.store.now ≡ S.room self.old.searcher.store.now }
        ensures frontier_room { F.room self.new.frontier.now ≡ F.room self.old.frontier.now }
        ensures lent { (self.new.searcher.estimator.ghost_name ≡ self.old.searcher.estimator.ghost_name) × (self.new.searcher.store.ghost_name ≡ self.old.searcher.store.ghost_name) × (self.new.frontier.ghost_name ≡ self.old.frontier.ghost_name) }
    {
        let mut preferred = ActionSet::empty();
        let Estimate::Steps(steps) = self
            .searcher
            .estimator
            .estimate(problem.task, problem.goal, state, &mut preferred)
        else {
            return (Verdict::None, 0, 0);
        };
        if steps == 0 {
            return (Verdict::Plan(0), 0, 0);
        }
        let start = Start {
            state: *state,
            steps,
        };
        let mut climbed = Expansions::within(budgets.hill);
        if let Some(len) = self.searcher.hill(problem, start, &mut climbed, list) {
            return (Verdict::Plan(len), climbed.count, 0);
        }
        let mut tried = Expansions::within(budgets.fallback);
        let found = self.fallback(problem, start, &mut tried, list);
        (Verdict::from(found), climbed.count, tried.count)
    }
}

// Plans from `state` to `goal` with an estimator and tables that are lent: the verdict with the expansions of the hill phase and of the fallback. The list of a plan stands at the front of the buffer.
pub fn plan<'t, E: Estimator, F: Frontier, S: Store>(
    task: &'t Task,
    state: &FactSet,
    goal: &'t FactSet,
    estimator: &mut E,
    frontier: &mut F,
    store: &mut S,
    budgets: Budgets,
    buffer: &mut [u16; LONGEST],
) -> Result<(Verdict, u32, u32), Refusal>
    ensures first { fault_in result ≡ refusal task.now.facts.words state.now.words goal.now.words (S.room store.old) (F.room frontier.old) budgets.hill budgets.fallback }
    ensures may { IfOk result (λ a. MayAnswer (posed E.meaning E.prefers task.now.actions.items goal.now.words (S.room store.old)) budgets.hill budgets.fallback state.now.words (said a.0 buffer.new) a.1 a.2) }
    ensures plans { IfOk result (λ a. Plans task.now.actions.items goal.now.words state.now.words (said a.0 buffer.new)) }
    ensures excludes { IfOk result (λ a. Excludes task.now.actions.items goal.now.words state.now.words (said a.0 buffer.new)) }
    ensures decided { IfOk result (λ a. (n : ℕ) → AtMost task.now.actions.items state.now.words n → n ≤ S.room store.old → n ≤ budgets.fallback → Decides (said a.0 buffer.new)) }
    ensures counts { IfOk result (λ a. (a.1 ≤ budgets.hill) × (a.2 ≤ budgets.fallback)) }
    ensures sized { IfOk result (λ a. Sized a.0) }
    ensures past { IfOk result (λ a. Past a.0 buffer.old buffer.new) }
    ensures long { length buffer.new ≡ longest }
    ensures store_room { S.room store.new ≡ S.room store.old }
    ensures frontier_room { F.room frontier.new ≡ F.room frontier.old }
    ensures kept { OnErr result ((estimator.new ≡ estimator.old) × (frontier.new ≡ frontier.old) × (store.new ≡ store.old) × (buffer.new ≡ buffer.old)) }
{
    let problem = Problem { task, goal };
    let limits = Limits {
        store: S::places(store),
        frontier: F::places(frontier),
        budgets,
    };
    check(problem, state, &limits)?;
    let mut list = [0; LONGEST];
    let mut planner = LentPlanner {
        searcher: LentSearcher { estimator, store },
        frontier,
    };
    let (verdict, climbed, tried) = planner.answer(problem, state, budgets, &mut list);
    deliver(verdict, &list, buffer);
    Ok((verdict, climbed, tried))
}

impl<E: Estimator, F: Frontier, S: Store> Planner<E, F, S> {
    // Puts an estimator and the two tables together.
    pub fn new(estimator: E, frontier: F, store: S) -> Planner<E, F, S>
        ensures estimator { result.searcher.estimator ≡ estimator }
        ensures store { result.searcher.store ≡ store }
        ensures frontier { result.frontier ≡ frontier }
    {
        Planner {
            searcher: Searcher { estimator, store },
            frontier,
        }
    }

    // The places of the tables, with the budgets that are asked for.
    pub fn limits(&self, budgets: Budgets) -> Limits
        ensures store { result.store ≡ S.room self.now.searcher.store }
        ensures frontier { result.frontier ≡ F.room self.now.frontier }
        ensures budgets { result.budgets ≡ budgets }
    {
        Limits {
            store: self.searcher.store.places(),
            frontier: self.frontier.places(),
            budgets,
        }
    }

    // Plans from `state` to `goal`: the verdict with the expansions of the hill phase and of the fallback. The list of a plan stands at the front of the buffer.
    pub fn plan(
        &mut self,
        task: &Task,
        state: &FactSet,
        goal: &FactSet,
        budgets: Budgets,
        buffer: &mut [u16; LONGEST],
    ) -> Result<(Verdict, u32, u32), Refusal>
        ensures first { fault_in result ≡ refusal task.now.facts.words state.now.words goal.now.words (S.room self.old.searcher.store) (F.room self.old.frontier) budgets.hill budgets.fallback }
        ensures may { IfOk result (λ a. MayAnswer (posed E.meaning E.prefers task.now.actions.items goal.now.words (S.room self.old.searcher.store)) budgets.hill budgets.fallback state.now.words (said a.0 buffer.new) a.1 a.2) }
        ensures plans { IfOk result (λ a. Plans task.now.actions.items goal.now.words state.now.words (said a.0 buffer.new)) }
        ensures excludes { IfOk result (λ a. Excludes task.now.actions.items goal.now.words state.now.words (said a.0 buffer.new)) }
        ensures decided { IfOk result (λ a. (n : ℕ) → AtMost task.now.actions.items state.now.words n → n ≤ S.room self.old.searcher.store → n ≤ budgets.fallback → Decides (said a.0 buffer.new)) }
        ensures counts { IfOk result (λ a. (a.1 ≤ budgets.hill) × (a.2 ≤ budgets.fallback)) }
        ensures sized { IfOk result (λ a. Sized a.0) }
        ensures past { IfOk result (λ a. Past a.0 buffer.old buffer.new) }
        ensures long { length buffer.new ≡ longest }
        ensures store_room { S.room self.new.searcher.store ≡ S.room self.old.searcher.store }
        ensures frontier_room { F.room self.new.frontier ≡ F.room self.old.frontier }
        ensures kept { OnErr result ((self.new ≡ self.old) × (buffer.new ≡ buffer.old)) }
    {
        plan(
            task,
            state,
            goal,
            &mut self.searcher.estimator,
            &mut self.frontier,
            &mut self.searcher.store,
            budgets,
            buffer,
        )
    }
}

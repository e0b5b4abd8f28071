// The calls of a session.
ghost use Rattle.std.specs.Prelude.{◌≡◌, ◌<◌, length, None, Some, IfOk, OnErr, OnOk};
ghost use Rattle.strips.specs.Semantics.{result as result_of};
ghost use Rattle.strips.specs.Sound.{act};
ghost use Rattle.session.specs.Account.{first, ruling};
ghost use Rattle.session.specs.Histories.{aim, correct, done, issue, not_done, opened, planned, settled};
ghost use Rattle.session.specs.Opening.{Opens, next};
ghost use Rattle.session.specs.Standing.{Back, Called, Counts, account, handed, outcome, plainly, reported};

use crate::held::HeldPlan;
use crate::model::{Call, Order, Phase, Refusal};
use crate::session::{Returned, Session, Slip};
use closed_list::Store;
use engine::{Budgets, Limits, Planner, Verdict, check_limits};
use facts::FactSet;
use heuristic::Estimator;
use open_list::Frontier;
use strips::Task;

// The places of the tables, with the budgets that are asked for.
fn limits<F: Frontier, S: Store>(frontier: &F, store: &S, budgets: Budgets) -> Limits
    ensures store { result.store ≡ S.room store.now }
    ensures frontier { result.frontier ≡ F.room frontier.now }
    ensures budgets { result.budgets ≡ budgets }
{
    Limits {
        store: store.places(),
        frontier: frontier.places(),
        budgets,
    }
}

impl<'t> Session<'t> {
    // Opens a session on a task: its initial state and its goal are told, nothing is held or out.
    pub fn open(task: &'t Task, number: u16) -> Session<'t>
        ensures of { result.task.now ≡ task.now }
        ensures named { result.number ≡ number }
        ensures start { account result ≡ opened task.now }
    {
        Session {
            task,
            number,
            state: task.initial(),
            goals: task.goal(),
            phase: Phase::Unasked,
            plan: HeldPlan::empty(),
        }
    }

    // The order of the first action that remains.
    fn next_order(&self) -> Option<Order>
        ensures first { 0 < length self.now.plan → result ≡ Some (next self.now) }
        ensures none { length self.now.plan ≡ 0 → result ≡ None }
    {
        let action = self.plan.first()?;
        Some(Order {
            session: self.number,
            action,
        })
    }

    // The numbered checks, on where the session stands and on the call together.
    fn check(&self, call: &Call) -> Result<(), Refusal>
        ensures ruled { plainly result ≡ settled (ruling self.now.task.now self.now.number (account self.now) call.now) }
    {
        match (self.phase, call) {
            (Phase::Ordered, Call::Report(order)) if self.next_order() == Some(*order) => Ok(()),
            (_, Call::Report(_)) => Err(Refusal::WrongSlip),
            (Phase::Ordered, _) => Err(Refusal::OrderOut),
            (Phase::Ready, Call::Issue) if self.plan.first().is_some() => Ok(()),
            (_, Call::Issue) => Err(Refusal::NothingToGive),
            (_, Call::Correct(set) | Call::Aim(set)) if self.task.admits(set) => Ok(()),
            (_, Call::Correct(_) | Call::Aim(_)) => Err(Refusal::OutsideFacts),
            (_, Call::Plan(limits)) => Ok(check_limits(limits)?),
        }
    }

    // The checks; where they pass, the history goes on by this call.
    #[tactic(auto, using(crate::proofs::Opening::opens))]
    fn admit(&self, call: &Call) -> Result<(), Refusal>
        ensures ruled { plainly result ≡ settled (ruling self.now.task.now self.now.number (account self.now) call.now) }
        ensures opens { OnOk result (Opens self.now call.now) }
    {
        self.check(call)
    }

    // Replaces the told state by a reported one.
    pub fn correct(&mut self, state: FactSet) -> Result<(), Refusal>
        ensures call { Called self.old (correct state.words (plainly result)) self.new }
    {
        self.admit(&Call::Correct(state))?;
        self.state = state;
        self.phase = Phase::Unasked; // what was held was for the old state
        Ok(())
    }

    // Replaces the told goals.
    pub fn aim(&mut self, goals: FactSet) -> Result<(), Refusal>
        ensures call { Called self.old (aim goals.words (plainly result)) self.new }
    {
        self.admit(&Call::Aim(goals))?;
        self.goals = goals;
        self.phase = Phase::Unasked; // what was held was for the old goals
        Ok(())
    }

    // As `plan`, with an estimator and tables that are lent.
    pub fn plan_lent<E: Estimator, F: Frontier, S: Store>(
        &mut self,
        estimator: &mut E,
        frontier: &mut F,
        store: &mut S,
        budgets: Budgets,
    ) -> Result<(Verdict, u32, u32), Refusal>
        ensures call { Called self.old (planned (record { estimate = E.meaning; prefers = E.prefers; limits = record { store = S.room store.old; frontier = F.room frontier.old; budgets = budgets } }) (outcome self.new result)) self.new }
        ensures counts { IfOk result (λ a. Counts a.0 (account self.new)) }
        ensures store_room { S.room store.new ≡ S.room store.old }
        ensures frontier_room { F.room frontier.new ≡ F.room frontier.old }
        ensures untouched { OnErr result ((estimator.new ≡ estimator.old) × (frontier.new ≡ frontier.old) × (store.new ≡ store.old)) }
    {
        self.admit(&Call::Plan(limits::<F, S>(frontier, store, budgets)))?;
        let Ok(answer) = self.plan.fill(
            estimator,
            frontier,
            store,
            self.task,
            &self.state,
            &self.goals,
            budgets,
        )
        else {
            unreachable!()
        };
        self.phase = Phase::from(answer.0);
        Ok(answer)
    }

    // Plans from the told state to the told goals, and holds what is answered.
    pub fn plan<E: Estimator, F: Frontier, S: Store>(
        &mut self,
        planner: &mut Planner<E, F, S>,
        budgets: Budgets,
    ) -> Result<(Verdict, u32, u32), Refusal>
        ensures call { Called self.old (planned (record { estimate = E.meaning; prefers = E.prefers; limits = record { store = S.room planner.old.searcher.store; frontier = F.room planner.old.frontier; budgets = budgets } }) (outcome self.new result)) self.new }
        ensures counts { IfOk result (λ a. Counts a.0 (account self.new)) }
        ensures store_room { S.room planner.new.searcher.store ≡ S.room planner.old.searcher.store }
        ensures frontier_room { F.room planner.new.frontier ≡ F.room planner.old.frontier }
        ensures untouched { OnErr result (planner.new ≡ planner.old) }
    {
        self.plan_lent(
            &mut planner.searcher.estimator,
            &mut planner.frontier,
            &mut planner.searcher.store,
            budgets,
        )
    }

    // Orders the first remaining action.
    pub fn issue(&mut self) -> Result<Slip, Refusal>
        ensures call { Called self.old (issue (handed result)) self.new }
    {
        self.admit(&Call::Issue)?;
        let Some(order) = self.next_order() else {
            unreachable!()
        };
        self.phase = Phase::Ordered;
        Ok(Slip { order })
    }

    // The told state after the first action that remains.
    fn next_state(&self) -> FactSet
        requires left { 0 < length self.now.plan }
        requires exists { first self.now.plan < length self.now.task.now.actions.items }
        ensures words { result.words ≡ result_of (act self.now.task.now.actions.items (first self.now.plan)) self.now.state.words }
    {
        let Some(action) = self.plan.first() else {
            unreachable!()
        };
        let Some(action) = self.task.action(usize::from(action)) else {
            unreachable!()
        };
        action.apply(&self.state)
    }

    // Takes back the slip of the order that is out; another one is refused, and comes back.
    fn close(&self, slip: Slip) -> Result<(), Returned>
        ensures ruled { reported result ≡ settled (ruling self.now.task.now self.now.number (account self.now) (Call.Report slip.order)) }
        ensures opens { OnOk result (Opens self.now (Call.Report slip.order)) }
        ensures back { Back slip result }
    {
        if let Err(refusal) = self.admit(&Call::Report(slip.order)) {
            return Err(Returned { refusal, slip });
        }
        let Slip { order: _ } = slip;
        Ok(())
    }

    // The ordered action was done.
    pub fn done(&mut self, slip: Slip) -> Result<(), Returned>
        ensures call { Called self.old (done slip.order (reported result)) self.new }
        ensures back { Back slip result }
    {
        self.close(slip)?;
        self.state = self.next_state();
        self.plan.advance();
        self.phase = Phase::Ready;
        Ok(())
    }

    // The ordered action was not done.
    pub fn not_done(&mut self, slip: Slip) -> Result<(), Returned>
        ensures call { Called self.old (not_done slip.order (reported result)) self.new }
        ensures back { Back slip result }
    {
        self.close(slip)?;
        self.phase = Phase::Unasked; // the plan failed in the yard
        Ok(())
    }
}

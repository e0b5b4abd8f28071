// The plan that a session holds.
ghost use Rattle.std.specs.Prelude.{◌≡◌, ◌<◌, ◌≤◌, drop, length, IfOk, None, Some};
ghost use Rattle.facts.specs.Checks.{fault_in};
ghost use Rattle.engine.specs.Answers.{MayAnswer, said};
ghost use Rattle.engine.specs.Checks.{refusal as refusal_of};
ghost use Rattle.engine.specs.Generation.{posed};
ghost use Rattle.engine.specs.HillClimbing.{longest};
ghost use Rattle.session.specs.Account.{first as first_of};
ghost use Rattle.session.specs.Verdicts.{length_for};

use closed_list::Store;
use engine::{Budgets, LONGEST, Verdict};
use facts::FactSet;
use heuristic::Estimator;
use open_list::Frontier;
use std::marker::Model;
use strips::Task;

// The actions are an array in place: a session is opened with no allocation that could fail, and the engine fills it.
#[derive(Drop)]
pub(crate) struct HeldPlan {
    actions: [u16; LONGEST],
    at: usize,
    len: usize,
}

// Clauses see the actions that remain, the next one first.
impl Model for HeldPlan {
    ghost use Rattle.std.specs.Prelude.{◌≤◌, ℕ, List, drop, take};
    ghost use Rattle.engine.specs.HillClimbing.{longest};

    ghost Value = { List ℕ };

    ghost view = { λ p. drop p.at (take p.len p.actions) };

    ghost invariant = { λ p. (p.at ≤ p.len) × (p.len ≤ longest) };
}

impl HeldPlan {
    pub(crate) fn empty() -> HeldPlan
        ensures none { length result ≡ 0 }
    {
        HeldPlan {
            actions: [0; LONGEST],
            at: 0,
            len: 0,
        }
    }

    pub(crate) fn remaining(&self) -> &[u16]
        ensures list { result.now ≡ self.now }
        ensures short { length result.now ≤ longest }
    {
        &self.actions[self.at..self.len]
    }

    pub(crate) fn first(&self) -> Option<u16>
        ensures some { 0 < length self.now → result ≡ Some (first_of self.now) }
        ensures none { length self.now ≡ 0 → result ≡ None }
    {
        self.remaining().first().copied()
    }

    // The first action was carried out.
    pub(crate) fn advance(&mut self)
        requires left { 0 < length self.old }
        ensures rest { self.new ≡ drop 1 self.old }
    {
        self.at += 1;
    }

    // Plans, and holds the list of the answer.
    pub(crate) fn fill<E: Estimator, F: Frontier, S: Store>(
        &mut self,
        estimator: &mut E,
        frontier: &mut F,
        store: &mut S,
        task: &Task,
        state: &FactSet,
        goals: &FactSet,
        budgets: Budgets,
    ) -> Result<(Verdict, u32, u32), engine::Refusal>
        ensures first { fault_in result ≡ refusal_of task.now.facts.words state.now.words goals.now.words (S.room store.old) (F.room frontier.old) budgets.hill budgets.fallback }
        ensures may { IfOk result (λ a. MayAnswer (posed E.meaning E.prefers task.now.actions.items goals.now.words (S.room store.old)) budgets.hill budgets.fallback state.now.words (said a.0 self.new) a.1 a.2) }
        ensures held { IfOk result (λ a. length self.new ≡ length_for a.0) }
        ensures store_room { S.room store.new ≡ S.room store.old }
        ensures frontier_room { F.room frontier.new ≡ F.room frontier.old }
    {
        let (verdict, climbed, tried) = engine::plan(
            task,
            state,
            goals,
            estimator,
            frontier,
            store,
            budgets,
            &mut self.actions,
        )?;
        self.at = 0;
        self.len = match verdict {
            Verdict::Plan(len) => usize::from(len),
            _ => 0,
        };
        Ok((verdict, climbed, tried))
    }
}

ghost use Rattle.std.specs.Prelude.{◌≡◌, ℕ, ◌^◌, ◌<◌, ◌≤◌, true, [], length, replicate, IfOk, vec_len, vec_capacity, MatchOption, slice_index};
ghost use Rattle.facts.specs.Field.{set_words};
ghost use Rattle.facts.specs.Words.{subset};
ghost use Rattle.strips.specs.Sound.{act, AllClashFree, AllWithin, most_actions, within};

use crate::action::Action;
use facts::FactSet;
use std::alloc::{AllocError, Global};

// the actions that a task may have
pub const MOST_ACTIONS: usize = 512;

// A task: every set lies within the facts in use, and no action adds and deletes one fact. Its memory is got when it is made.
#[derive(Drop)]
pub struct Task {
    pub(crate) facts: FactSet,
    pub(crate) initial: FactSet,
    pub(crate) goal: FactSet,
    pub(crate) actions: Vec<Action>,
    ghost wide: { length facts.words ≡ set_words },
    ghost small: { (k : ℕ) → slice_index facts.words k < 2 ^ 64 },
    ghost initial_within: { subset initial.words facts.words ≡ true },
    ghost goal_within: { subset goal.words facts.words ≡ true },
    ghost actions_within: { AllWithin facts.words actions.items },
    ghost clash_free: { AllClashFree actions.items },
    ghost few: { vec_len actions ≤ most_actions },
    ghost room: { most_actions ≤ vec_capacity actions },
}

impl Task {
    // A task with no facts and no actions.
    pub fn new(heap: Global) -> Result<Task, AllocError>
        ensures { IfOk result (λ t. (t.actions.items ≡ []) × (t.facts.words ≡ replicate set_words 0) × (t.initial.words ≡ replicate set_words 0) × (t.goal.words ≡ replicate set_words 0)) }
    {
        let actions = Vec::with_capacity(heap, MOST_ACTIONS)?;
        let none = FactSet::empty();
        Ok(Task {
            facts: none,
            initial: none,
            goal: none,
            actions,
        })
    }

    pub fn action_count(&self) -> usize
        ensures count { result ≡ vec_len self.now.actions }
        ensures few { result ≤ most_actions }
    {
        self.actions.len()
    }

    pub fn action(&self, k: usize) -> Option<&Action>
        ensures item { MatchOption result (length self.now.actions.items ≤ k) (λ a. (k < length self.now.actions.items) × (a.now ≡ act self.now.actions.items k)) }
    {
        self.actions.get(k)
    }

    // All actions, in the order of their numbers.
    pub fn actions(&self) -> &[Action]
        ensures list { result.now ≡ self.now.actions.items }
        ensures few { length result.now ≤ most_actions }
    {
        &self.actions
    }

    pub fn initial(&self) -> FactSet
        ensures value { result ≡ self.now.initial }
        ensures within { subset result.words self.now.facts.words ≡ true }
    {
        self.initial
    }

    pub fn goal(&self) -> FactSet
        ensures value { result ≡ self.now.goal }
        ensures within { subset result.words self.now.facts.words ≡ true }
    {
        self.goal
    }

    pub fn facts(&self) -> FactSet
        ensures value { result ≡ self.now.facts }
    {
        self.facts
    }

    // Whether a set lies within the facts in use.
    pub fn admits(&self, set: &FactSet) -> bool
        ensures test { result ≡ subset set.now.words self.now.facts.words }
    {
        set.is_subset(&self.facts)
    }
}

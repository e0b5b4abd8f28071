// The places of the tables and the budgets that a plan call may have.
ghost use Rattle.std.specs.Prelude.{◌≡◌, ◌≤◌, OnOk};
ghost use Rattle.facts.specs.Checks.{fault_in};
ghost use Rattle.engine.specs.Checks.{HasPlaces, limits as limits_of};

use crate::model::Refusal;

const MOST_PLACES: usize = 4096;

const MOST_BUDGET: u32 = 1_000_000;

// How many rows each phase of a plan call may expand.
#[derive(Clone, Copy, PartialEq, Eq, Debug)]
pub struct Budgets {
    pub hill: u32,
    pub fallback: u32,
}

// The places of the closed list and of the open list, with the budgets.
#[derive(Clone, Copy, PartialEq, Eq, Debug)]
pub struct Limits {
    pub store: usize,
    pub frontier: usize,
    pub budgets: Budgets,
}

// The checks of the places of the tables and of the budgets.
#[tactic(auto, unfolding(crate::specs::Checks::limits))]
pub fn check_limits(limits: &Limits) -> Result<(), Refusal>
    ensures first { fault_in result ≡ limits_of limits.now.store limits.now.frontier limits.now.budgets.hill limits.now.budgets.fallback }
    ensures passed { OnOk result (HasPlaces limits.now.store × (limits.now.store ≤ limits.now.frontier)) }
{
    if limits.store == 0 || limits.store > MOST_PLACES {
        return Err(Refusal::StorePlaces);
    }
    if limits.frontier < limits.store {
        return Err(Refusal::FrontierPlaces);
    }
    if limits.budgets.hill > MOST_BUDGET || limits.budgets.fallback > MOST_BUDGET {
        return Err(Refusal::Budget);
    }
    Ok(())
}

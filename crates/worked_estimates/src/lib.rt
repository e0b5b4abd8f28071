// What the estimators say of the worked yards: as facts that the definitions compute, and as tests that run.
#![tactic(auto)]

ghost use Rattle.worked_estimates.specs.Agreement.{RelaxedIsWeighed, WeighedIsRelaxed};
ghost use Rattle.worked_estimates.specs.Rows.{EveryRow, HelpfulLifts};

pub fn worked_yards_are_estimated()
    ensures rows { EveryRow }
    ensures helpful { HelpfulLifts }
{}

// Relaxed plan says never exactly where weights does.
pub fn estimators_agree_on_never()
    ensures relaxed { RelaxedIsWeighed }
    ensures weighed { WeighedIsRelaxed }
{}

#[cfg(test)]
mod tests;

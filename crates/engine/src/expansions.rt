// The count of expansions within a budget.
ghost use Rattle.std.specs.Prelude.{◌≡◌, ◌≤◌};
ghost use Rattle.engine.specs.Outcomes.{Counts};

use crate::model::Halt;

#[derive(Clone, Copy)]
pub(crate) struct Expansions {
    pub budget: u32,
    pub count: u32,
    ghost within: { count ≤ budget },
}

impl Expansions {
    pub(crate) fn within(budget: u32) -> Expansions
        ensures budget { result.budget ≡ budget }
        ensures none { result.count ≡ 0 }
    {
        Expansions { budget, count: 0 }
    }

    // Counts one more, where the budget has it.
    pub(crate) fn count_one(&mut self) -> Result<(), Halt>
        ensures counts { Counts self.old.budget self.old.count result self.new.count }
        ensures same { self.new.budget ≡ self.old.budget }
    {
        if self.count == self.budget {
            return Err(Halt::Spent);
        }
        self.count += 1;
        Ok(())
    }
}

ghost use Rattle.relaxed.specs.Laws.{AtMostFacts, NeverIsNone, NoneIsNever};

// What the estimate says of the task with deletes ignored: specs/Laws.antt has it.
pub fn relaxed_plan_is_lawful()
    ensures never_is_none { NeverIsNone }
    ensures none_is_never { NoneIsNever }
    ensures at_most_facts { AtMostFacts }
{}

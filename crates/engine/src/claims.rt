// What holds of every answer that a plan call may give: specs/Theorems.antt has the statements.
ghost use Rattle.engine.specs.Theorems.{AnswersCounted, AnswersDecided, AnswersNone, AnswersPlans, AnswersShort, HillsRun};

pub fn answers_are_lawful()
    ensures plans { AnswersPlans }
    ensures none { AnswersNone }
    ensures decided { AnswersDecided }
    ensures counted { AnswersCounted }
    ensures short { AnswersShort }
    ensures hills_run { HillsRun }
{}

ghost use Rattle.strips.specs.Laws.{FaultlessIsTask, FieldBits, ReachedByRun, RunReaches, RunsAgree, RunsJoin, RunsStay, TaskIsFaultless};

// The laws of runs and of task files: specs/Laws.antt has them.
pub fn tasks_are_lawful()
    ensures runs_join { RunsJoin }
    ensures runs_agree { RunsAgree }
    ensures runs_stay { RunsStay }
    ensures reached_by_run { ReachedByRun }
    ensures run_reaches { RunReaches }
    ensures faultless_is_task { FaultlessIsTask }
    ensures task_is_faultless { TaskIsFaultless }
    ensures field_bits { FieldBits }
{}

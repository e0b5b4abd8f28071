ghost use Rattle.worked.specs.ThreeLifts.{Solved};

// The yard of three lifts is a task, its list 2, 0, 1 is a plan, and the plan's file is the one written out byte by byte.
pub fn three_lifts_is_solved()
    ensures solved { Solved }
{}

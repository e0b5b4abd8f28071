ghost use Rattle.heuristic.specs.Relaxation.{PlansRelax};

// Every plan stays one where deletes are ignored: what cannot be reached so cannot be reached.
pub fn plans_relax()
    ensures { PlansRelax }
{}

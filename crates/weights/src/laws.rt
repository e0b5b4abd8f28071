ghost use Rattle.weights.specs.Laws.{GreatestAlone, NeverUnreached, UnreachedNever, WeightsGreatest, ZeroIsTrue};

// What the weights are, and what an estimate of never says: specs/Laws.antt has it.
pub fn weights_are_lawful()
    ensures greatest { WeightsGreatest }
    ensures alone { GreatestAlone }
    ensures zero_is_true { ZeroIsTrue }
    ensures never_unreached { NeverUnreached }
    ensures unreached_never { UnreachedNever }
{}

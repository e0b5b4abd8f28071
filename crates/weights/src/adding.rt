ghost use Rattle.std.specs.Prelude.{◌≡◌, not};
ghost use Rattle.weights.specs.Tables.{at_most, plus as plus_of};
ghost use Rattle.weights.specs.Weights.{least};

use heuristic::Estimate;

// the largest estimate
const MOST_STEPS: u16 = 65534;

// The sum of two weights: it stops at the largest estimate, and is never where one of them is.
pub(crate) fn plus(a: Estimate, b: Estimate) -> Estimate
    ensures { result ≡ plus_of a b }
{
    match (a, b) {
        (Estimate::Steps(m), Estimate::Steps(n)) => Estimate::Steps(
            m.saturating_add(n).min(MOST_STEPS),
        ),
        _ => Estimate::Never,
    }
}

// Lowers a weight to a cost, and says whether it fell.
pub(crate) fn lower(weight: &mut Estimate, cost: Estimate) -> bool
    ensures weight { weight.new ≡ least cost weight.old }
    ensures fell { result ≡ not (at_most weight.old cost) }
{
    let falls = cost < *weight;
    if falls {
        *weight = cost;
    }
    falls
}

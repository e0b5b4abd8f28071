ghost use Rattle.std.specs.Prelude.{◌≡◌, length, replicate};
ghost use Rattle.weights.specs.Tables.{fact_count};

use facts::FACTS;
use heuristic::Estimate;

// The weights of the facts. An estimate works in this table, so that it allocates nothing; what it held before does not matter.
#[derive(Drop)]
pub struct Weights {
    pub(crate) table: [Estimate; FACTS],
    ghost sized: { length table ≡ fact_count },
}

impl Weights {
    // A table in which nothing is weighed yet.
    pub fn new() -> Weights
        ensures { result.table ≡ replicate fact_count Estimate.Never }
    {
        Weights {
            table: [Estimate::Never; FACTS],
        }
    }
}

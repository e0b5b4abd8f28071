// The orders of the ordered frontiers: the numbers of an entry that are compared, in turn.
ghost use Rattle.std.specs.Prelude.{◌≡◌, ℕ, List, [], ◌∷◌, refl};
ghost use Rattle.std.specs.declared.cmp.Ordering.{Ordering as AnOrdering};
ghost use Rattle.std.specs.Ordering.{is_eq};
ghost use Rattle.open_list.specs.declared.entry.Entry.{Entry as AnEntry};
ghost use Rattle.ordered_open_list.specs.Ranks.{in_turn, weighted, by_weight, greedy, by_estimate};
ghost use Rattle.std.specs.Cmp.Rules.{comparing};
ghost use Rattle.std.proofs.Common.{rules};

use open_list::Entry;

pub trait Rank {
    ghost order: { AnEntry → AnEntry → AnOrdering };

    ghost numbers: { AnEntry → List ℕ };

    // The entry with the least rank comes first.
    fn rank(entry: Entry) -> (u32, u16, u16)
        ensures value { numbers entry ≡ result.0 ∷ result.1 ∷ result.2 ∷ [] };

    ghost compared: { (x y : AnEntry) → order x y ≡ in_turn (numbers x) (numbers y) };

    // Only equal entries tie.
    ghost ties: { (x y : AnEntry) → ⟦<Entry as PartialEq>⟧.eq x y ≡ is_eq (order x y) };
}

// Least distance + 5 × estimate, then lowest row number, then least estimate.
pub struct ByWeight;

impl Rank for ByWeight {
    ghost order = { by_weight };

    ghost numbers = { weighted };

    ghost compared = { λ _ _. refl };

    ghost ties = { Prim.search (comparing, rules) };

    fn rank(entry: Entry) -> (u32, u16, u16) {
        // It can pass 16 bits.
        let weight = u32::from(entry.distance) + 5 * u32::from(entry.estimate);
        (weight, entry.row, entry.estimate)
    }
}

// Least estimate, then least distance, then lowest row number.
pub struct ByEstimate;

impl Rank for ByEstimate {
    ghost order = { by_estimate };

    ghost numbers = { greedy };

    ghost compared = { λ _ _. refl };

    ghost ties = { Prim.search (comparing, rules) };

    fn rank(entry: Entry) -> (u32, u16, u16) {
        (u32::from(entry.estimate), entry.distance, entry.row)
    }
}

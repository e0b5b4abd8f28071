// Entries that compare by their rank.
ghost use Rattle.std.specs.Prelude.{Some, refl};
ghost use Rattle.std.specs.Cmp.{po};
ghost use Rattle.ordered_open_list.specs.InTurn.{total_in_turn};

use crate::key::Key;
use crate::rank::Rank;
use open_list::Entry;
use std::cmp::Ordering;
use std::marker::PhantomData;

#[derive_where(Clone, Copy, PartialEq, Eq)]
pub struct Ranked<R> {
    entry: Entry,
    #[derive_where(skip)]
    by: PhantomData<R>,
}

impl<R: Rank> Ord for Ranked<R> {
    ghost cmp = { λ x y. R.order x.entry y.entry };

    ghost total = { total_in_turn (λ x. R.numbers x.entry) (λ x y. R.compared x.entry y.entry) };

    ghost matches_partial_cmp = { λ _ _. refl };

    ghost matches_eq = { λ x y. R.ties x.entry y.entry };

    fn cmp(&self, other: &Ranked<R>) -> Ordering {
        // `then` takes no branch; the comparison of tuples does, and a take is slower by a tenth.
        let (mine, theirs) = (R::rank(self.entry), R::rank(other.entry));
        let first = mine.0.cmp(&theirs.0);
        let second = mine.1.cmp(&theirs.1);
        first.then(second).then(mine.2.cmp(&theirs.2))
    }
}

impl<R: Rank> PartialOrd for Ranked<R> {
    ghost partial_cmp = { λ x y. Some (R.order x.entry y.entry) };

    ghost laws = { po (total_in_turn (λ x. R.numbers x.entry) (λ x y. R.compared x.entry y.entry)) (λ x y. R.ties x.entry y.entry) };

    fn partial_cmp(&self, other: &Ranked<R>) -> Option<Ordering> {
        Some(self.cmp(other))
    }
}

impl<R: Rank> Key for Ranked<R> {
    ghost of = { λ x. x.entry };

    ghost order = { R.order };

    ghost agrees = { λ _ _. refl };

    fn new(entry: Entry) -> Ranked<R> {
        Ranked {
            entry,
            by: PhantomData,
        }
    }

    fn entry(self) -> Entry {
        self.entry
    }
}

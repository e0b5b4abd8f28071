// What waits in an ordered frontier: an entry under a total order.
ghost use Rattle.std.specs.Prelude.{◌≡◌};
ghost use Rattle.std.specs.declared.cmp.Ordering.{Ordering as AnOrdering};
ghost use Rattle.open_list.specs.declared.entry.Entry.{Entry as AnEntry};

use open_list::Entry;

// A trait beside `Rank`, since a heap's item at a type parameter has to be bounded by name.
pub trait Key: Ord + Drop {
    ghost of: { Self → AnEntry };

    ghost order: { AnEntry → AnEntry → AnOrdering };

    // Puts the entry under the order.
    fn new(entry: Entry) -> Self
        ensures value { of result ≡ entry };

    // Gives it back.
    fn entry(self) -> Entry
        ensures value { result ≡ of self };

    ghost agrees: { (x y : Self) → Self.cmp x y ≡ order (of x) (of y) };
}

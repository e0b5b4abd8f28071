// The interface of an open list: entries wait, repeats counted, in a fixed number of places.
ghost use Rattle.std.specs.Prelude.{◌≡◌, ℕ, ◌≤◌, List, [], length, IfErr};
ghost use Rattle.open_list.specs.declared.entry.Entry.{Entry as AnEntry};
ghost use Rattle.open_list.specs.Refused.{refusal_number};
ghost use Rattle.bounded_heap.specs.Waiting.{Put, Take};

use crate::entry::{Entry, Refusal};

pub trait Frontier {
    // The waiting entries; their order means nothing.
    ghost waiting: { Self → List AnEntry };

    ghost room: { Self → ℕ };

    fn put(&mut self, entry: Entry) -> Result<(), Refusal>
        ensures change { Put (room self.old) (waiting self.old) entry result (waiting self.new) }
        ensures number { IfErr result (λ why. refusal_number why ≡ 32) }
        ensures same { room self.new ≡ room self.old };

    fn take(&mut self) -> Option<Entry>
        ensures change { Take (waiting self.old) result (waiting self.new) }
        ensures same { room self.new ≡ room self.old };

    fn clear(&mut self)
        ensures change { waiting self.new ≡ [] }
        ensures same { room self.new ≡ room self.old };

    fn count(&self) -> usize
        ensures value { result ≡ length (waiting self.now) };

    fn places(&self) -> usize
        ensures value { result ≡ room self.now };

    ghost few: { (f : Self) → length (waiting f) ≤ room f };
}

// An open list that is lent.
impl<F: Frontier> Frontier for &mut F {
    ghost waiting = { λ f. F.waiting f.now };

    ghost room = { λ f. F.room f.now };

    ghost few = { λ f. F.few f.now };

    fn put(&mut self, entry: Entry) -> Result<(), Refusal> {
        (**self).put(entry)
    }

    fn take(&mut self) -> Option<Entry> {
        (**self).take()
    }

    fn clear(&mut self) {
        (**self).clear();
    }

    fn count(&self) -> usize {
        (**self).count()
    }

    fn places(&self) -> usize {
        (**self).places()
    }
}

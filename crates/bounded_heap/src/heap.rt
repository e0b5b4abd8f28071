// A heap with a fixed number of places, for every kind of item that has a total order.
ghost use Rattle.std.specs.Prelude.{◌≡◌, ◌≤◌, [], length, IfOk, IfErr};
ghost use Rattle.std.specs.BinaryHeap.{heap_capacity, heap_items, heap_len};
ghost use Rattle.bounded_heap.specs.Order.{Layered, LeastOf, held};
ghost use Rattle.bounded_heap.specs.Waiting.{Put, Take};
ghost use Rattle.std.proofs.Props.{props};

use std::alloc::{AllocError, Global};
use std::cmp::Reverse;
use std::collections::BinaryHeap;

#[derive(Drop)]
pub struct BoundedHeap<E: Ord> {
    items: BinaryHeap<Reverse<E>>,
    // std's `push` promises no exact capacity, so the number of places stands beside it.
    places: usize,
    ghost few: { heap_len items ≤ places },
    ghost reserved: { places ≤ heap_capacity items },
    ghost layered: { Layered E.Ord.cmp (heap_items items) } by { Prim.hlevel props },
}

impl<E: Ord> BoundedHeap<E> {
    pub fn new(heap: Global, places: usize) -> Result<BoundedHeap<E>, AllocError>
        ensures made { IfOk result (λ h. (held h.items ≡ []) × (h.places ≡ places)) }
    {
        let items = BinaryHeap::with_capacity(heap, places)?;
        Ok(BoundedHeap { items, places })
    }

    // A refused item comes back.
    #[tactic(auto, using(crate::proofs::Heaps::pushed))]
    pub fn push(&mut self, item: E) -> Result<(), E>
        ensures change { Put self.old.places (held self.old.items) item result (held self.new.items) }
        ensures back { IfErr result (λ x. x ≡ item) }
        ensures same { self.new.places ≡ self.old.places }
    {
        if self.count() == self.places {
            return Err(item);
        }
        // A place is reserved, so this stores the item.
        self.items
            .push(Reverse(item))
            .map_err(|refused| refused.value.0)
    }

    // The least item, if any.
    #[tactic(auto, using(crate::proofs::Heaps::popped, crate::proofs::Heaps::none_popped))]
    pub fn pop(&mut self) -> Option<E>
        ensures change { Take (held self.old.items) result (held self.new.items) }
        ensures same { self.new.places ≡ self.old.places }
        ensures least { LeastOf E.Ord.cmp (held self.old.items) result }
    {
        let Reverse(item) = self.items.pop()?;
        Some(item)
    }

    pub fn clear(&mut self)
    where
        E: Drop,
        ensures change { held self.new.items ≡ [] }
        ensures same { self.new.places ≡ self.old.places }
    {
        self.items.clear();
    }

    pub fn count(&self) -> usize
        ensures value { result ≡ length (held self.now.items) }
        ensures len { result ≡ heap_len self.now.items }
    {
        self.items.len()
    }

    pub fn places(&self) -> usize
        ensures value { result ≡ self.now.places }
    {
        self.places
    }
}

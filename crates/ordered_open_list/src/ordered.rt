// The least entry first, for every total order.
ghost use Rattle.std.specs.Prelude.{◌≡◌, [], IfOk};
ghost use Rattle.bounded_heap.specs.Order.{LeastOf, held};
ghost use Rattle.bounded_heap.specs.Waiting.{Take};
ghost use Rattle.ordered_open_list.specs.Ordered.{entries};
ghost use Rattle.std.proofs.Common.{arith};
ghost use Rattle.std.proofs.lemmas.List.{length-map};
ghost use Rattle.std.specs.BinaryHeap.{heap_items};

use crate::key::Key;
use crate::rank::{ByEstimate, ByWeight};
use crate::ranked::Ranked;
use bounded_heap::BoundedHeap;
use open_list::{Entry, Frontier, Refusal};
use std::alloc::{AllocError, Global};

#[derive(Drop)]
pub struct OrderedFrontier<K: Key> {
    heap: BoundedHeap<K>,
}

pub type WeightedFrontier = OrderedFrontier<Ranked<ByWeight>>;

pub type GreedyFrontier = OrderedFrontier<Ranked<ByEstimate>>;

impl<K: Key> OrderedFrontier<K> {
    pub fn new(heap: Global, places: usize) -> Result<OrderedFrontier<K>, AllocError>
        ensures made { IfOk result (λ f. (entries K.of f.heap.items ≡ []) × (f.heap.places ≡ places)) }
    {
        let heap = BoundedHeap::new(heap, places)?;
        Ok(OrderedFrontier { heap })
    }
}

impl<K: Key> Frontier for OrderedFrontier<K> {
    ghost waiting = { λ f. entries K.of f.heap.items };

    ghost room = { λ f. f.heap.places };

    ghost few = { λ f. omega (arith, length-map (held f.heap.items) K.of, length-map (heap_items f.heap.items) (λ x. x.0)) };

    fn put(&mut self, entry: Entry) -> Result<(), Refusal> {
        self.heap.push(K::new(entry)).map_err(|_| Refusal::Full)
    }

    fn take(&mut self) -> Option<Entry>
        ensures change { Take (entries K.of self.old.heap.items) result (entries K.of self.new.heap.items) }
        ensures same { self.new.heap.places ≡ self.old.heap.places }
        ensures least { LeastOf K.order (entries K.of self.old.heap.items) result }
    {
        self.heap.pop().map(K::entry)
    }

    fn clear(&mut self) {
        self.heap.clear();
    }

    fn count(&self) -> usize {
        self.heap.count()
    }

    fn places(&self) -> usize {
        self.heap.places()
    }
}

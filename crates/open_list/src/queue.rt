// The oldest entry first.
ghost use Rattle.std.specs.Prelude.{◌≡◌, [], IfOk, IfErr};
ghost use Rattle.std.specs.VecDeque.{deque_capacity};
ghost use Rattle.open_list.specs.Arrival.{Joins, Oldest};
ghost use Rattle.open_list.specs.Refused.{refusal_number};
ghost use Rattle.bounded_heap.specs.Waiting.{Put, Take};
ghost use Rattle.std.proofs.Common.{rules};

use crate::entry::{Entry, Refusal};
use crate::frontier::Frontier;
use std::alloc::{AllocError, Global};
use std::collections::VecDeque;

#[derive(Drop)]
pub struct Queue {
    entries: VecDeque<Entry>,
}

impl Queue {
    pub fn new(heap: Global, places: usize) -> Result<Queue, AllocError>
        ensures made { IfOk result (λ q. (q.entries.items ≡ []) × (deque_capacity q.entries ≡ places)) }
    {
        let entries = VecDeque::with_capacity(heap, places)?;
        Ok(Queue { entries })
    }
}

impl Frontier for Queue {
    ghost waiting = { λ q. q.entries.items };

    ghost room = { λ q. deque_capacity q.entries };

    ghost few = { Prim.search rules };

    #[tactic(auto, using(crate::proofs::Permuted::pushed))]
    fn put(&mut self, entry: Entry) -> Result<(), Refusal>
        ensures change { Put (deque_capacity self.old.entries) self.old.entries.items entry result self.new.entries.items }
        ensures number { IfErr result (λ why. refusal_number why ≡ 32) }
        ensures same { deque_capacity self.new.entries ≡ deque_capacity self.old.entries }
        ensures joins { Joins self.old.entries.items entry result self.new.entries.items }
    {
        if Self::count(self) == Self::places(self) {
            return Err(Refusal::Full);
        }
        self.entries.push_back_reserved(entry);
        Ok(())
    }

    fn take(&mut self) -> Option<Entry>
        ensures change { Take self.old.entries.items result self.new.entries.items }
        ensures same { deque_capacity self.new.entries ≡ deque_capacity self.old.entries }
        ensures oldest { Oldest self.old.entries.items result self.new.entries.items }
    {
        self.entries.pop_front()
    }

    fn clear(&mut self) {
        self.entries.clear();
    }

    fn count(&self) -> usize {
        self.entries.len()
    }

    fn places(&self) -> usize {
        self.entries.capacity()
    }
}

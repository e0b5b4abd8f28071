ghost use Rattle.std.specs.Prelude.{◌≡◌, ℕ, ◌+◌, ◌≤◌, [], IfOk, None, vec_len, slice_index_or, vec_capacity};
ghost use Rattle.closed_list.specs.Linked.{links_of, rows_of};
ghost use Rattle.closed_list.specs.Rows.{Different, Find};
ghost use Rattle.hashed_list.specs.Buckets.{Heads, Links, bucket as state_bucket};
ghost use Rattle.std.proofs.Math.Logic.{∥∥₁_elim};
ghost use Rattle.std.proofs.Math.Nat.{ℕ_set};
ghost use Rattle.std.proofs.Common.{rules};
ghost use Rattle.std.proofs.lemmas.List.{length-map};

use closed_list::{Linked, Refusal, Row, Store, Table};
use facts::FactSet;
use std::alloc::{AllocError, Global};

// Buckets by hand and not a hash map, since a clear is to cost the rows that were entered, and not all places.
#[derive(Drop)]
pub struct HashedStore {
    // Each row is linked to the latest row before it in its bucket.
    table: Table<Option<u16>>,
    // of each bucket, its latest row
    heads: Vec<Option<u16>>,
    // the bits of a digest that say the bucket, so that no call computes them from the length
    mask: usize,
    ghost wide: { vec_len heads ≡ mask + 1 },
    ghost latest_of_bucket: { Heads mask (rows_of table.entries.items) heads.items },
    ghost latest_before: { Links mask (rows_of table.entries.items) (links_of table.entries.items) },
    ghost different: { ∥ Different (rows_of table.entries.items) ∥₁ },
}

impl HashedStore {
    pub fn new(heap: Global, places: u16) -> Result<HashedStore, AllocError>
        ensures made { IfOk result (λ s. (rows_of s.table.entries.items ≡ []) × (vec_capacity s.table.entries ≡ places)) }
    {
        let table = Table::new(heap, places)?;
        // Twice the places, so that a bucket has few rows; a power of two, so that a mask picks it.
        let buckets = (2 * usize::from(places)).next_power_of_two();
        let mut heads = Vec::with_capacity(heap, buckets)?;
        heads.resize(buckets, None)?;
        Ok(HashedStore {
            table,
            heads,
            mask: buckets - 1,
        })
    }

    // The row of a state among those of its bucket, from the latest on.
    fn find_in(&self, bucket: usize, state: &FactSet) -> Option<u16>
        requires { bucket ≡ state_bucket self.now.mask state.now.words }
        ensures found { Find (rows_of self.now.table.entries.items) state.now.words result }
    {
        let entries = self.table.entries();
        let mut at = self.heads[bucket];
        while let Some(number) = at {
            let entry = &entries[usize::from(number)];
            if entry.row.state == *state {
                return Some(number);
            }
            at = entry.link;
        }
        None
    }
}

fn bucket(state: &FactSet, mask: usize) -> usize
    ensures value { result ≡ state_bucket mask state.now.words }
    ensures within { result ≤ mask }
{
    state.digest() as usize & mask
}

// Empties the buckets of the rows.
fn reset(heads: &mut Vec<Option<u16>>, entries: &[Linked<Option<u16>>], mask: usize)
    requires wide { vec_len heads.old ≡ mask + 1 }
    requires latest { Heads mask (rows_of entries.now) heads.old.items }
    ensures len { vec_len heads.new ≡ vec_len heads.old }
    ensures none { (b : ℕ) → slice_index_or heads.new.items b None ≡ None }
{
    for entry in entries {
        heads[bucket(&entry.row.state, mask)] = None;
    }
}

impl Store for HashedStore {
    ghost rows = { λ s. rows_of s.table.entries.items };

    ghost room = { λ s. vec_capacity s.table.entries };

    ghost few = { Prim.search (rules, length-map) };

    ghost different = { λ s i j il jl same. ∥∥₁_elim s.different (ℕ_set i j) (λ d. d i j il jl same) };

    fn find(&self, state: &FactSet) -> Option<u16> {
        self.find_in(bucket(state, self.mask), state)
    }

    fn enter(&mut self, row: Row) -> Result<u16, Refusal> {
        let bucket = bucket(&row.state, self.mask);
        if self.find_in(bucket, &row.state).is_some() {
            return Err(Refusal::Known);
        }
        let number = self.table.push(row, self.heads[bucket])?;
        self.heads[bucket] = Some(number);
        Ok(number)
    }

    fn row(&self, number: u16) -> Option<Row> {
        self.table.row(number)
    }

    // It costs what was used: the buckets of the rows, not all buckets.
    fn clear(&mut self) {
        reset(&mut self.heads, self.table.entries(), self.mask);
        self.table.clear();
    }

    fn count(&self) -> usize {
        self.table.entries().len()
    }

    fn places(&self) -> usize {
        self.table.places()
    }
}

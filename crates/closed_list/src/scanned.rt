// A closed list that is looked through from its first row on.
ghost use Rattle.std.specs.Prelude.{◌≡◌, ◌<◌, ◌↔◌, IsTrue, [], length, IfOk, vec_capacity};
ghost use Rattle.closed_list.specs.Linked.{rows_of};
ghost use Rattle.closed_list.specs.Rows.{Different, Find, row as row_at};
ghost use Rattle.std.proofs.Math.Logic.{∥∥₁_elim};
ghost use Rattle.std.proofs.Math.Nat.{ℕ_set};
ghost use Rattle.std.proofs.Common.{rules};
ghost use Rattle.std.proofs.lemmas.List.{length-map};

use crate::row::{Refusal, Row};
use crate::store::Store;
use crate::table::{Linked, Table};
use facts::FactSet;
use std::alloc::{AllocError, Global};

#[derive(Drop)]
pub struct ScannedStore {
    // The rows need no link.
    table: Table<()>,
    ghost different: { ∥ Different (rows_of table.entries.items) ∥₁ },
}

// Whether the row of the number has the state.
fn has_state(entries: &[Linked<()>], number: usize, state: &FactSet) -> bool
    requires { number < length entries.now }
    ensures { IsTrue result ↔ ((row_at (rows_of entries.now) number).state.words ≡ state.now.words) }
{
    entries[number].row.state == *state
}

impl ScannedStore {
    pub fn new(heap: Global, places: u16) -> Result<ScannedStore, AllocError>
        ensures made { IfOk result (λ s. (rows_of s.table.entries.items ≡ []) × (vec_capacity s.table.entries ≡ places)) }
    {
        Ok(ScannedStore {
            table: Table::new(heap, places)?,
        })
    }

    // The index of the first row with the state. It goes over numbers, for a chain over the entries takes an instruction more for each.
    fn first(&self, state: &FactSet) -> Option<usize>
        ensures found { Find (rows_of self.now.table.entries.items) state.now.words result }
    {
        let entries = self.table.entries();
        (0..entries.len()).find(
            |&number|
                requires { number < length entries.now }
            { has_state(entries, number, state) },
        )
    }
}

impl Store for ScannedStore {
    ghost rows = { λ s. rows_of s.table.entries.items };

    ghost room = { λ s. vec_capacity s.table.entries };

    ghost few = { Prim.search (rules, length-map) };

    ghost different = { λ s i j il jl same. ∥∥₁_elim s.different (ℕ_set i j) (λ d. d i j il jl same) };

    fn find(&self, state: &FactSet) -> Option<u16> {
        let number = self.first(state)?;
        Some(number as u16)
    }

    fn enter(&mut self, row: Row) -> Result<u16, Refusal> {
        if Self::find(self, &row.state).is_some() {
            return Err(Refusal::Known);
        }
        self.table.push(row, ())
    }

    fn row(&self, number: u16) -> Option<Row> {
        self.table.row(number)
    }

    fn clear(&mut self) {
        self.table.clear();
    }

    fn count(&self) -> usize {
        self.table.entries().len()
    }

    fn places(&self) -> usize {
        self.table.places()
    }
}

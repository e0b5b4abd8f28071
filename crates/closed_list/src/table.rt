// Rows in a fixed number of places: what every closed list is made of. Lists differ in how they find.
ghost use Rattle.std.specs.Prelude.{◌≡◌, ◌^◌, ◌<◌, ◌≤◌, [], length, IfOk, MatchOption, vec_capacity};
ghost use Rattle.closed_list.specs.Linked.{Pushed, rows_of};
ghost use Rattle.closed_list.specs.Rows.{row as row_at};

use crate::row::{Refusal, Row};
use std::alloc::{AllocError, Global};

// A row, and what its list keeps beside it to find rows by.
#[derive(Clone, Copy, Debug, PartialEq, Eq)]
pub struct Linked<L> {
    pub row: Row,
    pub link: L,
}

#[derive(Drop)]
pub struct Table<L> {
    // Its capacity is the number of places.
    entries: Vec<Linked<L>>,
    ghost numbered: { vec_capacity entries < 2 ^ 16 },
}

impl<L: Copy + Drop> Table<L> {
    pub fn new(heap: Global, places: u16) -> Result<Table<L>, AllocError>
        ensures made { IfOk result (λ t. (t.entries.items ≡ []) × (vec_capacity t.entries ≡ places)) }
    {
        let entries = Vec::with_capacity(heap, usize::from(places))?;
        Ok(Table { entries })
    }

    pub fn entries(&self) -> &[Linked<L>]
        ensures value { result.now ≡ self.now.entries.items }
    {
        &self.entries
    }

    // The row under a number; none from the count upwards.
    pub fn row(&self, number: u16) -> Option<Row>
        ensures found { MatchOption result (length (rows_of self.now.entries.items) ≤ number) (λ r. (number < length (rows_of self.now.entries.items)) × (r ≡ row_at (rows_of self.now.entries.items) number)) }
    {
        self.entries.get(usize::from(number)).map(|entry| entry.row)
    }

    // Adds a row under the next number, unless every place is taken.
    pub fn push(&mut self, row: Row, link: L) -> Result<u16, Refusal>
        ensures change { Pushed (vec_capacity self.old.entries) self.old.entries.items (record { row = row; link = link }) result self.new.entries.items }
        ensures same { vec_capacity self.new.entries ≡ vec_capacity self.old.entries }
    {
        let number = self.entries.len();
        if number == self.places() {
            return Err(Refusal::Full);
        }
        self.entries.push_reserved(Linked { row, link });
        Ok(number as u16)
    }

    pub fn clear(&mut self)
        ensures change { self.new.entries.items ≡ [] }
        ensures same { vec_capacity self.new.entries ≡ vec_capacity self.old.entries }
    {
        self.entries.clear();
    }

    pub fn places(&self) -> usize
        ensures value { result ≡ vec_capacity self.now.entries }
    {
        self.entries.capacity()
    }
}

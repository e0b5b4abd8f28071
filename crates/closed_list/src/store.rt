// The interface of a closed list: rows in order of entry, states all different, in a fixed number of places.
ghost use Rattle.std.specs.Prelude.{◌≡◌, ℕ, ◌<◌, ◌≤◌, List, [], length, MatchOption};
ghost use Rattle.closed_list.specs.declared.row.Row.{Row as ARow};
ghost use Rattle.closed_list.specs.Rows.{Different, Enter, Find, Read, row as row_at};

use crate::row::{Refusal, Row};
use facts::FactSet;

pub trait Store {
    // The rows; a row's number is its place in this list.
    ghost rows: { Self → List ARow };

    ghost room: { Self → ℕ };

    // The number of the row with this state, where there is one.
    fn find(&self, state: &FactSet) -> Option<u16>
        ensures found { Find (rows self.now) state.now.words result };

    // Adds the row under the next number.
    fn enter(&mut self, row: Row) -> Result<u16, Refusal>
        ensures change { Enter (room self.old) (rows self.old) row result (rows self.new) }
        ensures same { room self.new ≡ room self.old };

    // The row under a number; none from the count upwards.
    fn row(&self, number: u16) -> Option<Row>
        ensures found { MatchOption result (length (rows self.now) ≤ number) (λ r. (number < length (rows self.now)) × (r ≡ row_at (rows self.now) number)) };

    // Fills the record with a row; false from the count upwards, and then the record is left.
    final fn read(&self, number: u16, record: &mut Row) -> bool
        ensures filled { Read (rows self.now) number «record».old result «record».new }
    {
        match self.row(number) {
            Some(row) => {
                *record = row;
                true
            }
            None => false,
        }
    }

    fn clear(&mut self)
        ensures change { rows self.new ≡ [] }
        ensures same { room self.new ≡ room self.old };

    fn count(&self) -> usize
        ensures value { result ≡ length (rows self.now) };

    fn places(&self) -> usize
        ensures value { result ≡ room self.now };

    ghost few: { (s : Self) → length (rows s) ≤ room s };

    ghost different: { (s : Self) → Different (rows s) };
}

// A closed list that is lent.
impl<S: Store> Store for &mut S {
    ghost rows = { λ s. S.rows s.now };

    ghost room = { λ s. S.room s.now };

    ghost few = { λ s. S.few s.now };

    ghost different = { λ s. S.different s.now };

    fn find(&self, state: &FactSet) -> Option<u16> {
        (**self).find(state)
    }

    fn enter(&mut self, row: Row) -> Result<u16, Refusal> {
        (**self).enter(row)
    }

    fn row(&self, number: u16) -> Option<Row> {
        (**self).row(number)
    }

    fn clear(&mut self) {
        (**self).clear();
    }

    fn count(&self) -> usize {
        (**self).count()
    }

    fn places(&self) -> usize {
        (**self).places()
    }
}

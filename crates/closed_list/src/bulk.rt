// Entering and reading many rows, for every store: what its meaning alone lets a caller show.
ghost use Rattle.std.specs.Prelude.{◌≡◌, take, IfOk};
ghost use Rattle.closed_list.specs.Entered.{Entered};
ghost use Rattle.closed_list.specs.Rows.{numbered};

use crate::row::{Refusal, Row};
use crate::store::Store;
use std::alloc::{AllocError, Global};

// how many rows have a number of 16 bits
const NUMBERED: usize = 65536;

// Enters the rows in order, passes over those whose state is known, and stops at the first that finds no place.
// Answers how many were entered.
pub fn enter_all<S: Store>(store: &mut S, offered: &[Row]) -> usize
    ensures change { Entered (S.room store.old) (S.rows store.old) offered.now result (S.rows store.new) }
    ensures same { S.room store.new ≡ S.room store.old }
{
    let mut entered = 0;
    for row in offered {
        match store.enter(*row) {
            Ok(_) => entered += 1,
            Err(Refusal::Known) => {}
            Err(Refusal::Full) => return entered,
        }
    }
    entered
}

// Reads the rows back, as many as have a number.
pub fn read_all<S: Store>(heap: Global, store: &S) -> Result<Vec<Row>, AllocError>
    ensures made { IfOk result (λ v. v.items ≡ take numbered (S.rows store.now)) }
{
    let mut rows = Vec::with_capacity(heap, store.count().min(NUMBERED))?;
    // A store is asked by number, and has no list to go over.
    for number in 0..=u16::MAX {
        match store.row(number) {
            Some(row) => rows.push_reserved(row),
            None => break,
        }
    }
    Ok(rows)
}

use closed_list::{Refusal, Row, ScannedStore, Store, Table, enter_all, read_all};
use facts::FactSet;
use hashed_list::HashedStore;
use heuristic::Estimate;
use std::alloc::Global;
use std::process::Abort;
use std::test::Fail;

fn row(state: FactSet, action: u16) -> Row {
    Row {
        state,
        parent: 0,
        action,
        distance: 1,
        estimate: Estimate::Steps(2),
    }
}

fn only(fact: u8) -> FactSet {
    let mut state = FactSet::empty();
    state.insert(fact);
    state
}

// The bits of a number as facts in all words, so that each number has a state of its own.
fn numbered(number: u16) -> FactSet {
    let mut state = FactSet::empty();
    for bit in 0..16u8 {
        if (number >> bit) & 1 == 1 {
            state.insert(16 * bit);
        }
    }
    state
}

// A store of one place: a known state is refused as known, though the store is full.
fn has_one_place<S: Store>(rt: &impl Abort, store: &mut S) {
    let (first, second) = (only(1), only(2));
    assert!(rt; store.places() == 1);
    assert!(rt; store.find(&first).is_none());
    assert!(rt; store.enter(row(first, 7)) == Ok(0));
    assert!(rt; store.enter(row(first, 8)) == Err(Refusal::Known));
    assert!(rt; store.enter(row(second, 9)) == Err(Refusal::Full));
    assert!(rt; store.find(&second).is_none());
    assert!(rt; store.find(&first) == Some(0));
}

#[test]
fn known_is_told_before_full(rt: HostRuntime) -> Result<(), Fail> {
    has_one_place(&rt, &mut HashedStore::new(rt.alloc(), 1)?);
    has_one_place(&rt, &mut ScannedStore::new(rt.alloc(), 1)?);
    assert!(rt; Refusal::Known.number() == 30);
    assert!(rt; Refusal::Full.number() == 31);
    Ok(())
}

// A table of one place gives its row and the link beside it, and is full until it is cleared.
#[test]
fn a_table_has_rows_to_its_places(rt: HostRuntime) -> Result<(), Fail> {
    let mut table = Table::new(rt.alloc(), 1)?;
    for _ in 0..2 {
        assert!(rt; table.places() == 1 && table.entries().is_empty());
        assert!(rt; table.row(0).is_none());
        assert!(rt; table.push(row(only(1), 7), true) == Ok(0));
        assert!(rt; table.push(row(only(2), 8), true) == Err(Refusal::Full));
        assert!(rt; table.entries().len() == 1 && table.entries()[0].link);
        assert!(rt; table.row(0) == Some(row(only(1), 7)));
        assert!(rt; table.row(1).is_none());
        table.clear();
    }
    Ok(())
}

#[test]
fn no_place_takes_no_row(rt: HostRuntime) -> Result<(), Fail> {
    let mut store = HashedStore::new(rt.alloc(), 0)?;
    assert!(rt; store.enter(row(only(0), 0)) == Err(Refusal::Full));
    assert!(rt; store.find(&only(0)).is_none());
    store.clear();
    assert!(rt; store.count() == 0);
    Ok(())
}

// States that differ in one bit, two rows with one state, and one that finds no place; then again after a clear.
fn tells_bits_apart<S: Store>(rt: &impl Abort, heap: Global, store: &mut S) -> Result<(), Fail> {
    let offered = [
        row(FactSet::empty(), 0),
        row(only(0), 1),
        row(only(63), 2),
        row(only(0), 3),
        row(only(64), 4),
        row(only(255), 5),
        row(only(1), 6),
    ];
    for _ in 0..2 {
        store.clear();
        assert!(rt; enter_all(store, &offered) == 5);
        let rows = read_all(heap, store)?;
        assert!(rt; rows.len() == 5);
        for (i, entered) in rows.iter().enumerate() {
            assert!(rt; store.find(&entered.state) == Some(i as u16));
        }
        assert!(rt; rows[4].action == 5 && rows[4].state == only(255));
        assert!(rt; store.find(&only(1)).is_none());
        let mut record = row(only(9), 99);
        assert!(rt; !store.read(5, &mut record));
        assert!(rt; record.action == 99 && record.state == only(9));
        assert!(rt; store.read(3, &mut record) && record.action == 4);
        assert!(rt; store.row(3) == Some(record));
        assert!(rt; store.row(5).is_none());
    }
    Ok(())
}

#[test]
fn one_bit_makes_a_state(rt: HostRuntime) -> Result<(), Fail> {
    let heap = rt.alloc();
    tells_bits_apart(&rt, heap, &mut HashedStore::new(heap, 5)?)?;
    tells_bits_apart(&rt, heap, &mut ScannedStore::new(heap, 5)?)
}

// Two rows in four buckets: most of the other states fall into the bucket of one of them.
#[test]
fn one_bucket_is_not_one_state(rt: HostRuntime) -> Result<(), Fail> {
    let mut store = HashedStore::new(rt.alloc(), 2)?;
    assert!(rt; enter_all(&mut store, &[row(only(0), 0), row(only(1), 1)]) == 2);
    for fact in 2..=255u8 {
        assert!(rt; store.find(&only(fact)).is_none());
    }
    assert!(rt; store.find(&only(0)) == Some(0));
    assert!(rt; store.find(&only(1)) == Some(1));
    Ok(())
}

// So many rows that buckets have several.
#[test]
fn many_are_found(rt: HostRuntime) -> Result<(), Fail> {
    let mut store = HashedStore::new(rt.alloc(), 2000)?;
    for number in 0..2000u16 {
        assert!(rt; store.enter(row(numbered(number), number)) == Ok(number));
    }
    for number in 0..2000u16 {
        assert!(rt; store.find(&numbered(number)) == Some(number));
        assert!(rt; store.find(&numbered(2000 + number)).is_none());
    }
    assert!(rt; store.enter(row(numbered(1999), 0)) == Err(Refusal::Known));
    assert!(rt; store.enter(row(numbered(2000), 0)) == Err(Refusal::Full));
    store.clear();
    for number in 0..2000u16 {
        assert!(rt; store.find(&numbered(number)).is_none());
    }
    assert!(rt; store.enter(row(numbered(1999), 0)) == Ok(0));
    Ok(())
}

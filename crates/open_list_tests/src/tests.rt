use bounded_heap::BoundedHeap;
use open_list::{Entry, Frontier, Queue, drain, fill, refill};
use ordered_open_list::{ByWeight, GreedyFrontier, Key, Ranked, WeightedFrontier};
use std::alloc::Global;
use std::process::Abort;
use std::test::Fail;

fn entry(row: u16, estimate: u16, distance: u16) -> Entry {
    Entry {
        row,
        estimate,
        distance,
    }
}

// What is put comes out in the order that is expected.
fn comes_out<F: Frontier>(
    rt: &impl Abort,
    heap: Global,
    frontier: &mut F,
    entries: &[Entry],
    expected: &[Entry],
) -> Result<(), Fail> {
    let out = refill(heap, frontier, entries)?;
    assert!(rt; out.as_slice() == expected);
    assert!(rt; frontier.count() == 0);
    Ok(())
}

#[test]
fn queue_gives_the_oldest(rt: HostRuntime) -> Result<(), Fail> {
    let mut queue = Queue::new(rt.alloc(), 3)?;
    let (a, b) = (entry(2, 1, 0), entry(1, 0, 0));
    // A repeat counts, and the fourth finds no place.
    comes_out(&rt, rt.alloc(), &mut queue, &[a, b, a, b], &[a, b, a])
}

#[test]
fn weighted_gives_the_least_weight(rt: HostRuntime) -> Result<(), Fail> {
    let mut frontier = WeightedFrontier::new(rt.alloc(), 5)?;
    let by_estimate = entry(3, 2, 0);
    let by_row = entry(1, 1, 5);
    let first_of_row = entry(3, 1, 5);
    // 65,540 is past 16 bits.
    let heavy = entry(0, 13108, 0);
    comes_out(
        &rt,
        rt.alloc(),
        &mut frontier,
        &[heavy, by_estimate, first_of_row, by_row, by_estimate],
        &[by_row, first_of_row, by_estimate, by_estimate, heavy],
    )
}

#[test]
fn greedy_gives_the_least_estimate(rt: HostRuntime) -> Result<(), Fail> {
    let mut frontier = GreedyFrontier::new(rt.alloc(), 70000)?;
    let (first, second, third, last) = (
        entry(9, 1, 7),
        entry(5, 2, 3),
        entry(6, 2, 4),
        entry(7, 2, 4),
    );
    comes_out(
        &rt,
        rt.alloc(),
        &mut frontier,
        &[last, third, first, last, second],
        &[first, second, third, last, last],
    )
}

// With so many places, so many are put, and one more is refused.
fn fills<F: Frontier>(rt: &impl Abort, frontier: &mut F, places: usize) {
    let waiting = entry(1, 2, 3);
    assert!(rt; frontier.places() == places);
    for _ in 0..places {
        assert!(rt; frontier.put(waiting).is_ok());
    }
    assert!(rt; frontier.put(waiting).is_err());
    assert!(rt; frontier.count() == places);
    frontier.clear();
    assert!(rt; frontier.take().is_none());
}

#[test]
fn places_are_all_that_there_is(rt: HostRuntime) -> Result<(), Fail> {
    for places in 0..3 {
        fills(&rt, &mut Queue::new(rt.alloc(), places)?, places);
        fills(&rt, &mut WeightedFrontier::new(rt.alloc(), places)?, places);
        fills(&rt, &mut GreedyFrontier::new(rt.alloc(), places)?, places);
    }
    Ok(())
}

#[test]
fn weighted_breaks_ties(rt: HostRuntime) -> Result<(), Fail> {
    let mut frontier = WeightedFrontier::new(rt.alloc(), 5)?;
    // Weight 10 all three: the row decides, then the estimate.
    let (first, second, third) = (entry(1, 2, 0), entry(3, 1, 5), entry(3, 2, 0));
    // 65,540 is past 16 bits.
    let heavy = entry(0, 13108, 0);
    comes_out(
        &rt,
        rt.alloc(),
        &mut frontier,
        &[heavy, third, second, first, third],
        &[first, second, third, third, heavy],
    )
}

#[test]
fn greedy_breaks_ties(rt: HostRuntime) -> Result<(), Fail> {
    let mut frontier = GreedyFrontier::new(rt.alloc(), 70000)?;
    // Estimate 2 from the second on: the distance decides, then the row.
    let (first, second) = (entry(9, 1, 7), entry(8, 2, 3));
    let (third, last) = (entry(6, 2, 4), entry(7, 2, 4));
    comes_out(
        &rt,
        rt.alloc(),
        &mut frontier,
        &[last, third, first, last, second],
        &[first, second, third, last, last],
    )
}

// Every place can be taken, a refused entry changes nothing, and a cleared place can be taken again.
fn serves<F: Frontier>(
    rt: &impl Abort,
    heap: Global,
    frontier: &mut F,
    places: usize,
) -> Result<(), Fail> {
    let waiting = entry(1, 2, 3);
    assert!(rt; frontier.places() == places);
    assert!(rt; fill(frontier, &[waiting; 3]) == places);
    assert!(rt; frontier.put(entry(0, 0, 0)).is_err());
    let out = drain(heap, frontier)?;
    assert!(rt; out.len() == places);
    for left in out.iter() {
        assert!(rt; *left == waiting);
    }
    fill(frontier, &[waiting; 3]);
    frontier.clear();
    assert!(rt; frontier.take().is_none());
    assert!(rt; fill(frontier, &[waiting; 3]) == places);
    assert!(rt; frontier.count() == places);
    Ok(())
}

#[test]
fn places_serve_again(rt: HostRuntime) -> Result<(), Fail> {
    for places in 0..3 {
        serves(
            &rt,
            rt.alloc(),
            &mut Queue::new(rt.alloc(), places)?,
            places,
        )?;
        serves(
            &rt,
            rt.alloc(),
            &mut WeightedFrontier::new(rt.alloc(), places)?,
            places,
        )?;
        serves(
            &rt,
            rt.alloc(),
            &mut GreedyFrontier::new(rt.alloc(), places)?,
            places,
        )?;
    }
    Ok(())
}

#[test]
fn heap_hands_back_what_it_refuses(rt: HostRuntime) -> Result<(), Fail> {
    let mut heap = BoundedHeap::new(rt.alloc(), 1)?;
    let (light, heavy) = (entry(4, 0, 0), entry(2, 1, 0));
    assert!(rt; heap.push(Ranked::<ByWeight>::new(heavy)).is_ok());
    match heap.push(Ranked::new(light)) {
        Ok(()) => Err(Fail::new("a second item found a place")),
        Err(back) => {
            assert!(rt; back.entry() == light);
            Ok(())
        },
    }
}

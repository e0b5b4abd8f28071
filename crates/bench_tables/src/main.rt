// Fills and empties the tables at the size of a large session. Standard output has what came of it, which is always
// the same; standard error has the times.
#![tactic(auto)]

ghost use Rattle.std.specs.Prelude.{◌≤◌, length};

use closed_list::{Row, ScannedStore, Store, enter_all};
use facts::FactSet;
use hashed_list::HashedStore;
use heuristic::Estimate;
use open_list::{Entry, Frontier, drain, fill};
use ordered_open_list::WeightedFrontier;
use std::alloc::{AllocError, Global};
use std::time::Instant;

const ROWS: u16 = 4096;

// rows of the store that is cleared with little in it
const FEW: u16 = 16;

// The bits of a number as facts in all words, so that each number has a state of its own. The tests of closed lists have these lines too, for which a crate would be more to read.
fn numbered(number: u16) -> FactSet {
    let mut state = FactSet::empty();
    for bit in 0..16u8 {
        if (number >> bit) & 1 == 1 {
            state.insert(16 * bit);
        }
    }
    state
}

// The rows of so many numbers.
fn rows_from(heap: Global, first: u16, count: u16) -> Result<Vec<Row>, AllocError> {
    (0..count)
        .map(|i| Row {
            state: numbered(first.wrapping_add(i)),
            parent: 0,
            action: i,
            distance: 1,
            estimate: Estimate::Steps(1),
        })
        .collect(heap)
}

fn count_found<S: Store>(store: &S, rows: &[Row]) -> usize
    ensures { result ≤ length rows.now }
{
    rows.iter()
        .filter(|row| store.find(&row.state).is_some())
        .count()
}

// Times calls on a table.
#[derive(Drop)]
struct Timer<'a> {
    rt: &'a HostRuntime,
    table: &'a str,
}

impl Timer<'_> {
    // Runs the calls, prints how long one of them took, and gives what came of them.
    fn time<T: Drop, F: FnOnce() -> T>(&self, what: &str, calls: usize, run: F) -> anyhow::Result<T>
        requires { F.IsAlwaysCallable run }
    {
        let Timer { rt, table } = self;
        let start = Instant::now(rt)?;
        let outcome = run();
        let nanos = start.elapsed(rt)?.as_nanos();
        eprintln!(rt; "{table} {what}: {} ns", nanos / (calls.max(1) as u128))?;
        Ok(outcome)
    }
}

fn run_store<S: Store>(rt: &HostRuntime, table: &str, store: &mut S) -> anyhow::Result<()> {
    let rows = rows_from(rt.alloc(), 0, ROWS)?;
    let strangers = rows_from(rt.alloc(), ROWS, ROWS)?;
    let few = rows_from(rt.alloc(), 0, FEW)?;
    let timer = Timer { rt, table };
    // The first round finds the memory cold.
    for _ in 0..2 {
        store.clear();
        let entered = timer.time("enter", rows.len(), || enter_all(store, &rows))?;
        let found = timer.time("find", rows.len(), || count_found(store, &rows))?;
        let wrong = timer.time("find in vain", strangers.len(), || {
            count_found(store, &strangers)
        })?;
        timer.time("clear when full", 1, || store.clear())?;
        let left = store.count();
        println!(rt;
            "{table}: {entered} entered, {found} found, {wrong} found in vain, {left} left"
        )?;
    }
    enter_all(store, &few);
    timer.time("clear with few rows", 1, || store.clear())?;
    println!(rt; "{table}: {} left of few", store.count())?;
    Ok(())
}

fn run_frontier(rt: &HostRuntime) -> anyhow::Result<()> {
    let entries: Vec<Entry> = (0..ROWS)
        .map(|row| {
            let mixed = row.wrapping_mul(40503);
            Entry {
                row,
                estimate: mixed & 0xff,
                distance: mixed >> 8,
            }
        })
        .collect(rt.alloc())?;
    let mut frontier = WeightedFrontier::new(rt.alloc(), entries.len())?;
    let timer = Timer {
        rt,
        table: "weighted",
    };
    let put = timer.time("put", entries.len(), || fill(&mut frontier, &entries))?;
    let taken = timer.time("take", entries.len(), || drain(rt.alloc(), &mut frontier))??;
    println!(rt;
        "weighted: {put} put, {} taken, {} left",
        taken.len(),
        frontier.count()
    )?;
    Ok(())
}

fn main(rt: HostRuntime) -> anyhow::Result<()> {
    run_store(&rt, "hashed", &mut HashedStore::new(rt.alloc(), ROWS)?)?;
    run_store(&rt, "scanned", &mut ScannedStore::new(rt.alloc(), ROWS)?)?;
    run_frontier(&rt)
}

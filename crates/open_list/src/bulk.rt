// Filling and emptying, for every frontier: what its meaning alone lets a caller show.
ghost use Rattle.std.specs.Prelude.{◌≡◌, ◌-◌, min, ◌++◌, length, take};
ghost use Rattle.std.specs.List.Sorted.{IsPermutation};
ghost use Rattle.open_list.specs.Emptied.{Drained, Refilled};

use crate::entry::Entry;
use crate::frontier::Frontier;
use std::alloc::{AllocError, Global};

// Puts the entries until one is refused, and answers how many were put.
pub fn fill<F: Frontier>(frontier: &mut F, entries: &[Entry]) -> usize
    ensures count { result ≡ min (length entries.now) (F.room frontier.old - length (F.waiting frontier.old)) }
    ensures change { IsPermutation (F.waiting frontier.old ++ take result entries.now) (F.waiting frontier.new) }
    ensures same { F.room frontier.new ≡ F.room frontier.old }
{
    for (i, entry) in entries.iter().enumerate() {
        if let Err(_) = frontier.put(*entry) {
            return i;
        }
    }
    entries.len()
}

// Takes all entries, in the order in which they come.
pub fn drain<F: Frontier>(heap: Global, frontier: &mut F) -> Result<Vec<Entry>, AllocError>
    ensures change { Drained (F.waiting frontier.old) result (F.waiting frontier.new) }
    ensures same { F.room frontier.new ≡ F.room frontier.old }
{
    let mut out = Vec::with_capacity(heap, frontier.count())?;
    while let Some(entry) = frontier.take() {
        out.push_reserved(entry);
    }
    Ok(out)
}

// Empties the frontier, fills it and takes all entries again.
pub fn refill<F: Frontier>(
    heap: Global,
    frontier: &mut F,
    entries: &[Entry],
) -> Result<Vec<Entry>, AllocError>
    ensures change { Refilled (F.room frontier.old) entries.now result (F.waiting frontier.new) }
    ensures same { F.room frontier.new ≡ F.room frontier.old }
{
    frontier.clear();
    fill(frontier, entries);
    drain(heap, frontier)
}

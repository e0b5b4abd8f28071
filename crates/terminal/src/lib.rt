// The console at work: the yard from its file, commands from standard input, replies to standard output.
#![tactic(auto)]

mod answering;

use crate::answering::answer;
use commands::Console;
use console_lines::Reply;
use engine::Planner;
use hashed_list::HashedStore;
use ordered_open_list::WeightedFrontier;
use relaxed::RelaxedGraph;
use session::Session;
use std::fs;
use std::io::{BufRead, BufReader};
use strips::Task;

// what is read of the yard's file: one record more than a task may have
const MOST_BYTES: usize = 49_344;

const PLACES: u16 = 512;

const SESSION: u16 = 1;

// Answers each line as it comes. One buffer serves all lines.
fn converse(rt: &HostRuntime, task: &Task) -> anyhow::Result<()> {
    let frontier = WeightedFrontier::new(rt.alloc(), usize::from(PLACES))?;
    let store = HashedStore::new(rt.alloc(), PLACES)?;
    let mut console = Console {
        session: Session::open(task, SESSION),
        planner: Planner::new(RelaxedGraph::new(), frontier, store),
    };
    let mut input = BufReader::new(rt.alloc(), rt.stdin())?;
    let mut bytes = Vec::new(rt.alloc());
    for _ in 0..u64::MAX {
        bytes.clear();
        input.read_until(b'\n', &mut bytes)?;
        let Some(reply) = answer(&mut console, &bytes) else {
            break;
        };
        println!(rt; "{reply}")?;
    }
    Ok(())
}

// Reads `yard.tsk`, which counts as empty where it cannot be read, and then standard input. A refused task is told, and nothing else.
pub fn run(rt: &HostRuntime) -> anyhow::Result<()> {
    let file = fs::read(rt, "yard.tsk").unwrap_or_else(|_| Vec::new(rt.alloc()));
    let used = file.len().min(MOST_BYTES);
    let mut task = Task::new(rt.alloc())?;
    if let Err(fault) = task.read(&file[..used]) {
        let reply = Reply::Task {
            cause: fault.cause.number(),
            record: fault.record,
        };
        println!(rt; "{reply}")?;
        return Ok(());
    }
    converse(rt, &task)
}

// Carries out `yard.pln` on the task of `yard.tsk`, and prints what it did and how it ended.
#![tactic(auto)]

use std::fs;
use transcript::Replay;

// The bytes of a file; none where it cannot be read.
fn read_or_empty(rt: &HostRuntime, path: &str) -> Vec<u8> {
    fs::read(rt, path).unwrap_or_else(|_| Vec::new(rt.alloc()))
}

fn main(rt: HostRuntime) -> anyhow::Result<()> {
    let task_file = read_or_empty(&rt, "yard.tsk");
    let plan_file = read_or_empty(&rt, "yard.pln");
    let mut replay = Replay::new(rt.alloc())?;
    replay.run(&task_file, &plan_file);
    for line in replay.lines() {
        println!(rt; "{line}")?;
    }
    Ok(())
}

// Tells what each estimator says of the task of `yard.tsk`, and again after each action that standard input names.
#![tactic(auto)]

use facts::FactSet;
use heuristic::{Estimator, GoalCount};
use input_lines::Lines;
use inspection::{Move, describe, make_move};
use relaxed::RelaxedGraph;
use std::fs;
use std::io::Read;
use strips::Task;
use weights::Weights;

// Prints the line of one estimator.
fn show<E: Estimator>(
    rt: &HostRuntime,
    name: &str,
    estimator: &mut E,
    task: &Task,
    state: &FactSet,
) -> anyhow::Result<()> {
    let line = describe(rt.alloc(), name, estimator, task, &task.goal(), state)?;
    println!(rt; "{line}")?;
    Ok(())
}

// The estimators that are asked and hold memory.
#[derive(Drop)]
struct Estimators {
    relaxed: RelaxedGraph,
    weights: Weights,
}

impl Estimators {
    // Prints the lines of all estimators.
    fn show(&mut self, rt: &HostRuntime, task: &Task, state: &FactSet) -> anyhow::Result<()> {
        show(rt, "relaxed", &mut self.relaxed, task, state)?;
        show(rt, "weights", &mut self.weights, task, state)?;
        show(rt, "count", &mut GoalCount {}, task, state)
    }
}

// Reads lines, and makes the moves that they name.
fn follow(rt: &HostRuntime, task: &Task, input: &[u8]) -> anyhow::Result<()> {
    let mut estimators = Estimators {
        relaxed: RelaxedGraph::new(),
        weights: Weights::new(),
    };
    let mut state = task.initial();
    estimators.show(rt, task, &state)?;
    for line in Lines(input) {
        let came = make_move(task, &mut state, line);
        println!(rt; "{came}")?;
        if let Move::Did { action: _ } = came {
            estimators.show(rt, task, &state)?;
        }
    }
    Ok(())
}

fn main(rt: HostRuntime) -> anyhow::Result<()> {
    let file = fs::read(&rt, "yard.tsk").unwrap_or_else(|_| Vec::new(rt.alloc()));
    let mut task = Task::new(rt.alloc())?;
    if let Err(fault) = task.read(&file) {
        // The other programs have this line among lines of their own.
        println!(rt; "task {} {}", fault.cause.number(), fault.record)?;
        return Ok(());
    }
    let mut input = Vec::new(rt.alloc());
    rt.stdin().read_to_end(&mut input)?;
    follow(&rt, &task, &input)
}

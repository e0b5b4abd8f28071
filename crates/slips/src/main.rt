// Plans for the yard of `yard.tsk`, then orders each lift of the plan and reports it done.
#![tactic(auto)]

ghost use Rattle.std.specs.Prelude.{IsOk};

use closed_list::ScannedStore;
use engine::{Budgets, Planner, Verdict};
use open_list::Queue;
use relaxed::RelaxedGraph;
use session::{Returned, Session};
use std::fs;
use strips::Task;

const PLACES: u16 = 16;

const BUDGETS: Budgets = Budgets {
    hill: 100,
    fallback: 100,
};

// Orders the first remaining lift and reports it done; nothing where none remains. A session takes its own slip back.
fn lift(session: &mut Session<'_>) -> Result<Option<u16>, Returned>
    ensures answered { IsOk result }
{
    let Ok(slip) = session.issue() else {
        return Ok(None);
    };
    let action = slip.action();
    session.done(slip)?;
    Ok(Some(action))
}

// Carries out as many lifts as the plan has.
fn carry_out(rt: &HostRuntime, session: &mut Session<'_>, len: u16) -> anyhow::Result<()> {
    for _ in 0..len {
        match lift(session) {
            Ok(Some(action)) => println!(rt; "did {action}")?,
            Ok(None) => println!(rt; "nothing to lift")?,
            Err(_back) => unreachable!(),
        }
    }
    Ok(())
}

fn main(rt: HostRuntime) -> anyhow::Result<()> {
    let file = fs::read(&rt, "yard.tsk").unwrap_or_else(|_| Vec::new(rt.alloc()));
    let mut task = Task::new(rt.alloc())?;
    if let Err(fault) = task.read(&file) {
        // The other programs have this line among lines of their own.
        println!(rt; "task {} {}", fault.cause.number(), fault.record)?;
        return Ok(());
    }
    let mut session = Session::open(&task, 1);
    let queue = Queue::new(rt.alloc(), usize::from(PLACES))?;
    let store = ScannedStore::new(rt.alloc(), PLACES)?;
    let mut planner = Planner::new(RelaxedGraph::new(), queue, store);
    match session.plan(&mut planner, BUDGETS) {
        Ok((Verdict::Plan(len), climbed, tried)) => {
            println!(rt; "plan {len} {climbed} {tried}")?;
            carry_out(&rt, &mut session, len)?;
        }
        Ok((Verdict::None, _, _)) => println!(rt; "no plan exists")?,
        Ok((_, _, _)) => println!(rt; "undecided")?,
        Err(refusal) => println!(rt; "refused {}", refusal.number())?,
    }
    let left = session.goals().missing(&session.state());
    println!(rt; "goals left {left}")?;
    Ok(())
}

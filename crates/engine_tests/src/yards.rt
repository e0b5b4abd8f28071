// Yards, and what plan calls answer on them.
use closed_list::ScannedStore;
use engine::{Budgets, LONGEST, Planner, Verdict};
use facts::FactSet;
use heuristic::Estimator;
use open_list::Frontier;
use ordered_open_list::WeightedFrontier;
use std::process::Abort;
use std::test::Fail;
use strips::{Action, Task};

// A plan call, and what it is to answer.
#[derive(Clone, Copy)]
pub struct Call {
    pub places: u16,
    pub hill: u32,
    pub fallback: u32,
    pub verdict: Verdict,
    pub climbed: u32,
    pub tried: u32,
}

// A number that no action has.
pub const MARK: u16 = 60000;

pub fn set_of(facts: &[u8]) -> FactSet {
    let mut set = FactSet::empty();
    for fact in facts {
        set.insert(*fact);
    }
    set
}

// An action by what it needs, adds and deletes.
pub fn lift(needs: &[u8], adds: &[u8], deletes: &[u8]) -> Action {
    Action {
        pre: set_of(needs),
        add: set_of(adds),
        del: set_of(deletes),
    }
}

fn add_record(file: &mut Vec<u8>, fields: [FactSet; 3]) -> Result<(), Fail> {
    for set in fields {
        for byte in set.to_bytes() {
            file.push(byte)?;
        }
    }
    Ok(())
}

// A task with facts 0 to 254 in use.
pub fn task_of(
    rt: &HostRuntime,
    initial: &[u8],
    goals: &[u8],
    actions: &[Action],
) -> Result<Task, Fail> {
    let mut in_use = FactSet::empty();
    for fact in 0..255u8 {
        in_use.insert(fact);
    }
    let mut file = Vec::new(rt.alloc());
    add_record(&mut file, [set_of(initial), set_of(goals), in_use])?;
    for action in actions {
        add_record(&mut file, [action.pre, action.add, action.del])?;
    }
    let mut task = Task::new(rt.alloc())?;
    task.read(&file)?;
    Ok(task)
}

pub fn case(
    places: u16,
    hill: u32,
    fallback: u32,
    verdict: Verdict,
    climbed: u32,
    tried: u32,
) -> Call {
    Call {
        places,
        hill,
        fallback,
        verdict,
        climbed,
        tried,
    }
}

// The list stands at the front where there is a plan, and all else in the buffer is as it was.
fn check_buffer(rt: &impl Abort, buffer: &[u16], list: &[u16], verdict: Verdict) {
    let mut found = &list[..0];
    if let Verdict::Plan(count) = verdict {
        assert_eq!(rt; usize::from(count), list.len());
        found = list;
    }
    assert!(rt; found.len() <= buffer.len());
    let (front, rest) = buffer.split_at(found.len());
    assert!(rt; front == found);
    assert!(rt; rest.iter().all(|left| *left == MARK));
}

// Makes the calls; `list` is what those that answer plan find.
pub fn check_calls<E: Estimator + Drop, F: Frontier + Drop>(
    rt: &(impl Abort + AllocGlobal),
    task: &Task,
    estimator: E,
    frontier: F,
    list: &[u16],
    cases: &[Call],
) -> Result<(), Fail> {
    let mut planner = Planner::new(estimator, frontier, ScannedStore::new(rt.alloc(), 0)?);
    for case in cases {
        planner.searcher.store = ScannedStore::new(rt.alloc(), case.places)?;
        let budgets = Budgets {
            hill: case.hill,
            fallback: case.fallback,
        };
        let mut buffer = [MARK; LONGEST];
        let (verdict, climbed, tried) = planner.plan(
            task,
            &task.initial(),
            &task.goal(),
            budgets,
            &mut buffer,
        )?;
        assert_eq!(rt; verdict, case.verdict);
        assert_eq!(rt; climbed, case.climbed);
        assert_eq!(rt; tried, case.tried);
        check_buffer(rt, &buffer, list, verdict);
    }
    Ok(())
}

// With the weighted frontier.
pub fn check_weighted<E: Estimator + Drop>(
    rt: &(impl Abort + AllocGlobal),
    task: &Task,
    estimator: E,
    list: &[u16],
    cases: &[Call],
) -> Result<(), Fail> {
    let frontier = WeightedFrontier::new(rt.alloc(), 512)?;
    check_calls(rt, task, estimator, frontier, list, cases)
}

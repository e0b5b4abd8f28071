use crate::yards::{MARK, lift, set_of, task_of};
use closed_list::{Row, ScannedStore, Store};
use engine::{Budgets, LONGEST, Planner};
use heuristic::{Estimate, GoalCount};
use open_list::{Entry, Frontier, Queue};
use std::process::Abort;
use std::test::Fail;
use strips::Task;

// A call from and to these facts, the places of its tables, its budgets, and the number under which it is refused.
#[derive(Clone, Copy)]
struct Attempt {
    state: u8,
    goal: u8,
    places: u16,
    waiting: usize,
    hill: u32,
    fallback: u32,
    number: u8,
}

const ROW_STATE: [u8; 2] = [3, 4];

const ENTRY: Entry = Entry {
    row: 1,
    estimate: 2,
    distance: 3,
};

// One row and one entry stand in the tables, where there is a place. Buffer and tables stay.
fn check_refused(rt: &(impl Abort + AllocGlobal), task: &Task, call: Attempt) -> Result<(), Fail> {
    let mut store = ScannedStore::new(rt.alloc(), call.places)?;
    let _ = store.enter(Row {
        state: set_of(&ROW_STATE),
        parent: 1,
        action: 2,
        distance: 3,
        estimate: Estimate::Never,
    });
    let mut queue = Queue::new(rt.alloc(), call.waiting)?;
    let _ = queue.put(ENTRY);
    let mut buffer = [MARK; LONGEST];
    let mut planner = Planner::new(GoalCount {}, queue, store);
    let budgets = Budgets {
        hill: call.hill,
        fallback: call.fallback,
    };
    match planner.plan(
        task,
        &set_of(&[call.state]),
        &set_of(&[call.goal]),
        budgets,
        &mut buffer,
    ) {
        Ok(_) => return Err(Fail::new("not refused")),
        Err(refusal) => assert_eq!(rt; refusal.number(), call.number),
    }
    assert!(rt; buffer.iter().all(|left| *left == MARK));
    assert_eq!(rt;
        planner.searcher.store.count(),
        usize::from(call.places.min(1))
    );
    assert!(rt; call.places == 0 || planner.searcher.store.find(&set_of(&ROW_STATE)).is_some());
    match planner.frontier.take() {
        Some(left) => {
            assert!(rt; left == ENTRY);
            Ok(())
        },
        None => {
            assert!(rt; call.waiting == 0);
            Ok(())
        },
    }
}

fn refused(
    state: u8,
    goal: u8,
    places: u16,
    waiting: usize,
    hill: u32,
    fallback: u32,
    number: u8,
) -> Attempt {
    Attempt {
        state,
        goal,
        places,
        waiting,
        hill,
        fallback,
        number,
    }
}

const MOST: u32 = 1_000_000;

// Fact 255 is not in use. From all that can be wrong on, one thing after another is set right.
#[test]
fn refusals_in_order(rt: HostRuntime) -> Result<(), Fail> {
    let task = task_of(&rt, &[0], &[1], &[lift(&[], &[1], &[])])?;
    let calls = [
        refused(255, 255, 4097, 4096, MOST + 1, MOST + 1, 6),
        refused(0, 255, 0, 0, MOST + 1, MOST + 1, 6),
        refused(255, 1, 1, 1, 0, 0, 6),
        refused(0, 1, 4097, 4096, MOST + 1, MOST + 1, 7),
        refused(0, 1, 0, 0, MOST + 1, MOST, 7),
        refused(0, 1, 4096, 4095, MOST + 1, MOST + 1, 8),
        refused(0, 1, 1, 0, MOST, MOST + 1, 8),
        refused(0, 1, 4096, 4096, MOST + 1, MOST, 9),
        refused(0, 1, 1, 1, 0, MOST + 1, 9),
    ];
    for call in calls {
        check_refused(&rt, &task, call)?;
    }
    Ok(())
}

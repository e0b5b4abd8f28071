use crate::yards::{case, check_calls, lift, task_of};
use engine::Verdict;
use heuristic::GoalCount;
use open_list::Queue;
use std::test::Fail;
use strips::{Action, Task};

const BITS: [u8; 12] = [0, 1, 2, 3, 4, 5, 6, 7, 8, 9, 10, 11];

const CLEAR: [u8; 12] = [12, 13, 14, 15, 16, 17, 18, 19, 20, 21, 22, 23];

const ALL_SET: u8 = 24;

// Sets a bit where all lower ones are set, and clears these.
fn count_up(bit: u8) -> Action {
    let mut action = lift(&[], &[], &[]);
    for low in 0..bit.min(12) {
        action.pre.insert(low);
        action.add.insert(low + 12);
        action.del.insert(low);
    }
    action.pre.insert(bit.min(12) + 12);
    action.add.insert(bit);
    action.del.insert(bit.min(12) + 12);
    action
}

// Counts from 0 to 4,095 in twelve bits: fact i says that bit i is set, and fact i + 12 that it is clear.
// One action at most is applicable in each of the 4,096 states, and all bits are set after 4,095 actions. Then action 12 can be made.
fn counter(rt: &HostRuntime, goals: &[u8]) -> Result<Task, Fail> {
    let mut actions = Vec::new(rt.alloc());
    for bit in BITS {
        actions.push(count_up(bit))?;
    }
    actions.push(lift(&BITS, &[ALL_SET], &[]))?;
    task_of(rt, &CLEAR, goals, &actions)
}

// In stretches of 1, 2, 4 and up to 2,048 actions, and by the best-first phase alone. Step n sets the lowest bit of n.
#[test]
fn longest_list(rt: HostRuntime) -> Result<(), Fail> {
    let mut list = Vec::new(rt.alloc());
    for step in 1..4096u16 {
        list.push(step.trailing_zeros() as u16)?;
    }
    let cases = [
        case(4096, 1_000_000, 1_000_000, Verdict::Plan(4095), 4095, 0),
        case(4096, 0, 1_000_000, Verdict::Plan(4095), 0, 4095),
    ];
    let task = counter(&rt, &BITS)?;
    let queue = Queue::new(rt.alloc(), 4096)?;
    check_calls(&rt, &task, GoalCount {}, queue, &list, &cases)
}

// The joined list would have 4,096 actions, and the best-first phase has 4,096 places for 4,097 states.
#[test]
fn too_long_a_list(rt: HostRuntime) -> Result<(), Fail> {
    let mut goals = Vec::new(rt.alloc());
    for fact in BITS {
        goals.push(fact)?;
    }
    goals.push(ALL_SET)?;
    let cases = [case(4096, 1_000_000, 1_000_000, Verdict::Full, 4096, 4096)];
    let task = counter(&rt, &goals)?;
    let queue = Queue::new(rt.alloc(), 4096)?;
    check_calls(&rt, &task, GoalCount {}, queue, &[], &cases)
}

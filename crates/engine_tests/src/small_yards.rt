use crate::yards::{case, check_calls, check_weighted, lift, task_of};
use engine::Verdict;
use heuristic::GoalCount;
use open_list::Queue;
use ordered_open_list::GreedyFrontier;
use relaxed::RelaxedGraph;
use std::test::Fail;
use weights::Weights;

#[test]
fn three_lifts(rt: HostRuntime) -> Result<(), Fail> {
    let actions = [
        lift(&[0], &[1], &[]),
        lift(&[0], &[2], &[]),
        lift(&[], &[0], &[]),
    ];
    let task = task_of(&rt, &[], &[1, 2], &actions)?;
    // Along the plan relaxed plan says 3, 2, 1, 0, and weights 4, 2, 1, 0.
    let cases = [
        case(512, 10, 10, Verdict::Plan(3), 3, 0),
        case(512, 0, 0, Verdict::Spent, 0, 0),
    ];
    check_weighted(&rt, &task, RelaxedGraph::new(), &[2, 0, 1], &cases)?;
    check_weighted(&rt, &task, Weights::new(), &[2, 0, 1], &cases)
}

// The state without the key is at never by relaxed plan, and takes a place all the same. Goal count climbs to it.
#[test]
fn key(rt: HostRuntime) -> Result<(), Fail> {
    let actions = [lift(&[0], &[1], &[0]), lift(&[0], &[2], &[])];
    let task = task_of(&rt, &[0], &[1, 2], &actions)?;
    let cases = [
        case(512, 10, 10, Verdict::Plan(2), 2, 0),
        case(3, 10, 10, Verdict::Plan(2), 2, 0),
        case(2, 10, 10, Verdict::Full, 1, 1),
    ];
    check_weighted(&rt, &task, RelaxedGraph::new(), &[1, 0], &cases)?;
    let counted = [case(512, 10, 10, Verdict::Plan(2), 3, 3)];
    check_weighted(&rt, &task, GoalCount {}, &[1, 0], &counted)
}

// Estimate never at the start is answered whatever the budgets.
#[test]
fn one_record(rt: HostRuntime) -> Result<(), Fail> {
    let task = task_of(&rt, &[], &[0], &[])?;
    let counted = [
        case(1, 0, 1, Verdict::None, 0, 1),
        case(1, 0, 0, Verdict::Spent, 0, 0),
    ];
    check_weighted(&rt, &task, GoalCount {}, &[], &counted)?;
    let never = [case(1, 0, 0, Verdict::None, 0, 0)];
    check_weighted(&rt, &task, RelaxedGraph::new(), &[], &never)
}

#[test]
fn no_goals(rt: HostRuntime) -> Result<(), Fail> {
    let task = task_of(&rt, &[], &[], &[])?;
    let cases = [
        case(1, 0, 0, Verdict::Plan(0), 0, 0),
        case(1, 10, 10, Verdict::Plan(0), 0, 0),
    ];
    check_weighted(&rt, &task, GoalCount {}, &[], &cases)?;
    check_weighted(&rt, &task, RelaxedGraph::new(), &[], &cases)?;
    check_weighted(&rt, &task, Weights::new(), &[], &cases)
}

// No action adds the goal at once, so goal count prefers none: row 0 is taken up, again with all actions, and then row 1.
// Of the three states the last has the goal.
#[test]
fn all_actions_and_full(rt: HostRuntime) -> Result<(), Fail> {
    let actions = [lift(&[], &[0], &[]), lift(&[0], &[1], &[])];
    let task = task_of(&rt, &[], &[1], &actions)?;
    let cases = [
        case(3, 10, 10, Verdict::Plan(2), 3, 0),
        case(3, 2, 10, Verdict::Plan(2), 2, 2),
        case(2, 10, 10, Verdict::Full, 3, 2),
        case(1, 10, 10, Verdict::Full, 2, 1),
    ];
    check_weighted(&rt, &task, GoalCount {}, &[0, 1], &cases)
}

// Each action uses the key up, so both results of row 0 are at never: the hill phase skips them, and the other does not put them.
#[test]
fn never_rows(rt: HostRuntime) -> Result<(), Fail> {
    let actions = [lift(&[0], &[1], &[0]), lift(&[0], &[2], &[0])];
    let task = task_of(&rt, &[0], &[1, 2], &actions)?;
    let cases = [
        case(3, 10, 1, Verdict::None, 2, 1),
        case(2, 10, 1, Verdict::Full, 1, 1),
    ];
    check_weighted(&rt, &task, RelaxedGraph::new(), &[], &cases)
}

// Action 0 leads to {0}, which is better by the estimate; there action 1 deletes 0, which comes no more. The goals are the fifth state.
#[test]
fn dead_end(rt: HostRuntime) -> Result<(), Fail> {
    let actions = [lift(&[2], &[0], &[2]), lift(&[], &[1], &[0])];
    let task = task_of(&rt, &[2], &[0, 1], &actions)?;
    let cases = [
        case(5, 10, 10, Verdict::Plan(2), 3, 3),
        case(4, 10, 10, Verdict::Full, 3, 3),
    ];
    check_weighted(&rt, &task, RelaxedGraph::new(), &[1, 0], &cases)
}

// Action 0 gives a goal up. The hill phase takes that row up all the same, and a state with all goals meets its five rows.
// An ordered frontier leaves the row waiting; the queue does not, and meets a full store too.
#[test]
fn detour(rt: HostRuntime) -> Result<(), Fail> {
    let actions = [
        lift(&[], &[1], &[4]),
        lift(&[1], &[2], &[]),
        lift(&[], &[3], &[]),
        lift(&[3], &[0], &[]),
    ];
    let task = task_of(&rt, &[4], &[0, 4], &actions)?;
    let count = GoalCount {};
    let ordered = [case(5, 10, 10, Verdict::Plan(2), 4, 2)];
    check_weighted(&rt, &task, count, &[2, 3], &ordered)?;
    let greedy = GreedyFrontier::new(rt.alloc(), 5)?;
    check_calls(&rt, &task, count, greedy, &[2, 3], &ordered)?;
    let queue = Queue::new(rt.alloc(), 5)?;
    let queued = [case(5, 10, 10, Verdict::Full, 4, 3)];
    check_calls(&rt, &task, count, queue, &[], &queued)
}

// Two actions that need nothing reach four states. With as many places the answer is plan or none; with three the last state meets a full store,
// after known results were passed over in it.
#[test]
fn as_many_places_as_states(rt: HostRuntime) -> Result<(), Fail> {
    let actions = [lift(&[], &[0], &[]), lift(&[], &[1], &[])];
    let count = GoalCount {};
    let reached = [
        case(4, 0, 4, Verdict::Plan(2), 0, 2),
        case(3, 0, 4, Verdict::Full, 0, 2),
    ];
    let task = task_of(&rt, &[], &[0, 1], &actions)?;
    check_weighted(&rt, &task, count, &[0, 1], &reached)?;
    let missed = [
        case(4, 10, 4, Verdict::None, 5, 4),
        case(4, 10, 3, Verdict::Spent, 5, 3),
        case(3, 10, 4, Verdict::Full, 3, 2),
    ];
    let task = task_of(&rt, &[], &[9], &actions)?;
    check_weighted(&rt, &task, count, &[], &missed)
}

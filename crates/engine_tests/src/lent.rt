// Planners over an estimator and tables that are lent: these stay their owner's.
use crate::yards::{MARK, lift, task_of};
use closed_list::{ScannedStore, Store};
use engine::{Budgets, LONGEST, Planner, Verdict, plan};
use open_list::Frontier;
use ordered_open_list::WeightedFrontier;
use relaxed::RelaxedGraph;
use std::test::Fail;

#[test]
fn lent_tables(rt: HostRuntime) -> Result<(), Fail> {
    let actions = [
        lift(&[0], &[1], &[]),
        lift(&[0], &[2], &[]),
        lift(&[], &[0], &[]),
    ];
    let task = task_of(&rt, &[], &[1, 2], &actions)?;
    let mut graph = RelaxedGraph::new();
    let mut frontier = WeightedFrontier::new(rt.alloc(), 8)?;
    let mut store = ScannedStore::new(rt.alloc(), 8)?;
    let mut buffer = [MARK; LONGEST];
    for (budget, verdict, climbed) in [(10, Verdict::Plan(3), 3), (0, Verdict::Spent, 0)] {
        let budgets = Budgets {
            hill: budget,
            fallback: budget,
        };
        let mut planner = Planner::new(&mut graph, &mut frontier, &mut store);
        let answer = planner.plan(&task, &task.initial(), &task.goal(), budgets, &mut buffer)?;
        assert_eq!(rt; answer, (verdict, climbed, 0));
        assert!(rt; buffer[..3] == [2, 0, 1]);
    }
    let answer = plan(
        &task,
        &task.initial(),
        &task.goal(),
        &mut graph,
        &mut frontier,
        &mut store,
        Budgets {
            hill: 0,
            fallback: 0,
        },
        &mut buffer,
    )?;
    assert_eq!(rt; answer, (Verdict::Spent, 0, 0));
    // Spent before an expansion: the told state is the one row, and waits.
    assert_eq!(rt; store.count(), 1);
    assert_eq!(rt; frontier.count(), 1);
    Ok(())
}

ghost use Rattle.std.specs.Prelude.{◌<◌};

use facts::ActionSet;
use heuristic::{Estimate, Estimator, GoalCount};
use relaxed::RelaxedGraph;
use std::process::Abort;
use std::test::*;
use strips::Task;
use weights::Weights;

// A field of a record: record 0 has the task's, each record after it those of an action.
#[derive(Clone, Copy)]
enum Field {
    Initial,
    Goal,
    InUse,
    Pre,
    Add,
    Del,
}

use Field::{Add, Del, Goal, InUse, Initial, Pre};

impl Field {
    fn place(self) -> usize
        ensures { result < 3 }
    {
        match self {
            Initial | Pre => 0,
            Goal | Add => 1,
            InUse | Del => 2,
        }
    }
}

// A fact of a field of a record.
#[derive(Clone, Copy)]
struct Bit {
    record: u16,
    field: Field,
    fact: u8,
}

// A yard of some records with all facts in use, and what is said of its initial state.
#[derive(Drop)]
struct Yard<'a> {
    records: u16,
    bits: &'a [Bit],
    relaxed: Estimate,
    weights: Estimate,
    count: Estimate,
    helpful: &'a [u16],
}

fn put(file: &mut [u8], bit: Bit) {
    let at = usize::from(bit.record) * 96 + bit.field.place() * 32 + usize::from(bit.fact) / 8;
    if at < file.len() {
        file[at] |= 1 << (bit.fact % 8);
    }
}

fn check_yard(rt: &(impl Abort + AllocGlobal), yard: &Yard) -> Result<(), Fail> {
    let mut file = vec![in rt.alloc(); 0u8; usize::from(yard.records) * 96]?;
    for fact in 0..=255 {
        put(&mut file, at(0, InUse, fact));
    }
    for bit in yard.bits {
        put(&mut file, *bit);
    }
    let mut task = Task::new(rt.alloc())?;
    task.read(&file)?;
    let mut preferred = ActionSet::empty();
    let mut graph = RelaxedGraph::new();
    assert_eq!(rt;
        graph.estimate(&task, &task.goal(), &task.initial(), &mut preferred),
        yard.relaxed
    );
    for k in 0..yard.records {
        assert_eq!(rt; preferred.contains(k), yard.helpful.contains(&k));
    }
    let mut weights = Weights::new();
    assert_eq!(rt;
        weights.estimate(&task, &task.goal(), &task.initial(), &mut preferred),
        yard.weights
    );
    let mut counter = GoalCount {};
    assert_eq!(rt;
        counter.estimate(&task, &task.goal(), &task.initial(), &mut preferred),
        yard.count
    );
    Ok(())
}

const fn at(record: u16, field: Field, fact: u8) -> Bit {
    Bit {
        record,
        field,
        fact,
    }
}

// Three lifts.
#[test]
fn three_lifts(rt: HostRuntime) -> Result<(), Fail> {
    let bits = [
        at(0, Goal, 1),
        at(0, Goal, 2),
        at(1, Pre, 0),
        at(1, Add, 1),
        at(2, Pre, 0),
        at(2, Add, 2),
        at(3, Add, 0),
    ];
    check_yard(
        &rt,
        &Yard {
            records: 4,
            bits: &bits,
            relaxed: Estimate::Steps(3),
            weights: Estimate::Steps(4),
            count: Estimate::Steps(2),
            helpful: &[2],
        },
    )
}

// Key, from the state that is given.
fn check_key(
    rt: &(impl Abort + AllocGlobal),
    state: u8,
    relaxed: Estimate,
    weights: Estimate,
    count: u16,
    helpful: &[u16],
) -> Result<(), Fail> {
    let bits = [
        at(0, Initial, state),
        at(0, Goal, 1),
        at(0, Goal, 2),
        at(1, Pre, 0),
        at(1, Add, 1),
        at(1, Del, 0),
        at(2, Pre, 0),
        at(2, Add, 2),
    ];
    check_yard(
        rt,
        &Yard {
            records: 3,
            bits: &bits,
            relaxed,
            weights,
            count: Estimate::Steps(count),
            helpful,
        },
    )
}

#[test]
fn key(rt: HostRuntime) -> Result<(), Fail> {
    check_key(&rt, 0, Estimate::Steps(2), Estimate::Steps(2), 2, &[0, 1])
}

// Without the key no list of actions reaches the other goal.
#[test]
fn key_used_up(rt: HostRuntime) -> Result<(), Fail> {
    check_key(&rt, 1, Estimate::Never, Estimate::Never, 1, &[])
}

// An action that adds its own precondition reaches nothing by it. Fact 255 is the last.
#[test]
fn unreachable_goal(rt: HostRuntime) -> Result<(), Fail> {
    let bits = [
        at(0, Goal, 255),
        at(1, Pre, 255),
        at(1, Add, 255),
        at(0, Initial, 0),
        at(1, Del, 0),
    ];
    check_yard(
        &rt,
        &Yard {
            records: 2,
            bits: &bits,
            relaxed: Estimate::Never,
            weights: Estimate::Never,
            count: Estimate::Steps(1),
            helpful: &[],
        },
    )
}

// One record: with no goals nothing is left to do, and with no actions a goal is never reached.
#[test]
fn one_record(rt: HostRuntime) -> Result<(), Fail> {
    check_yard(
        &rt,
        &Yard {
            records: 1,
            bits: &[],
            relaxed: Estimate::Steps(0),
            weights: Estimate::Steps(0),
            count: Estimate::Steps(0),
            helpful: &[],
        },
    )
}

#[test]
fn one_record_with_a_goal(rt: HostRuntime) -> Result<(), Fail> {
    check_yard(
        &rt,
        &Yard {
            records: 1,
            bits: &[at(0, Goal, 0)],
            relaxed: Estimate::Never,
            weights: Estimate::Never,
            count: Estimate::Steps(1),
            helpful: &[],
        },
    )
}

// Action 0 needs 0 and adds 1 and the goal 2, action 1 needs 1 and adds 0 and the goal 3, actions 2 and 3 add 0 and 1.
// Extraction selects actions 0 and 1, and each marks true what the other needs: the estimate is 2, though every list that reaches the goals has three.
#[test]
fn marked_before_their_turn(rt: HostRuntime) -> Result<(), Fail> {
    let bits = [
        at(0, Goal, 2),
        at(0, Goal, 3),
        at(1, Pre, 0),
        at(1, Add, 1),
        at(1, Add, 2),
        at(2, Pre, 1),
        at(2, Add, 0),
        at(2, Add, 3),
        at(3, Add, 0),
        at(4, Add, 1),
    ];
    check_yard(
        &rt,
        &Yard {
            records: 5,
            bits: &bits,
            relaxed: Estimate::Steps(2),
            weights: Estimate::Steps(4),
            count: Estimate::Steps(2),
            helpful: &[2],
        },
    )
}

// A ladder of `rungs`: facts 2 i and 2 i + 1 stand on rung i, and each needs both of the rung below.
fn check_ladder(
    rt: &(impl Abort + AllocGlobal),
    rungs: u8,
    relaxed: u16,
    weights: u16,
) -> Result<(), Fail> {
    let mut bits = Vec::new(rt.alloc());
    bits.push(at(0, Initial, 0))?;
    bits.push(at(0, Initial, 1))?;
    for rung in 0..rungs.min(16) {
        let low = 2 * rung;
        let record = 2 * u16::from(rung) + 1;
        for own in 0..2u8 {
            let here = record + u16::from(own);
            bits.push(at(here, Pre, low))?;
            bits.push(at(here, Pre, low + 1))?;
            bits.push(at(here, Add, low + 2 + own))?;
        }
    }
    bits.push(at(0, Goal, 2 * rungs.min(16)))?;
    check_yard(
        rt,
        &Yard {
            records: 2 * u16::from(rungs) + 1,
            bits: &bits,
            relaxed: Estimate::Steps(relaxed),
            weights: Estimate::Steps(weights),
            count: Estimate::Steps(1),
            helpful: &[0, 1],
        },
    )
}

#[test]
fn ladder_of_eight(rt: HostRuntime) -> Result<(), Fail> {
    check_ladder(&rt, 8, 15, 255)
}

// The sum stops at 65,534.
#[test]
fn ladder_of_sixteen(rt: HostRuntime) -> Result<(), Fail> {
    check_ladder(&rt, 16, 31, 65534)
}

use crate::yards::{put, set_of, task_of, three_lifts};
use std::test::Fail;
use strips::{Cause, Fault, Task};

// A file of zeros with some bytes put into it, and the fault that is told: number, record and field, or nothing.
struct Case {
    bytes: usize,
    puts: [(usize, u8); 3],
    fault: Option<(u8, usize, u8)>,
}

// past the end of every file
const NONE: (usize, u8) = (usize::MAX, 0);

// places of the fields of the first records
const INITIAL: usize = 0;

const GOAL: usize = 32;

const FACTS: usize = 64;

const PRE: usize = 96;

const ADD: usize = 128;

const DEL: usize = 160;

const NEXT_PRE: usize = 192;

const NEXT_DEL: usize = 256;

const CASES: [Case; 20] = [
    // lengths
    Case {
        bytes: 0,
        puts: [NONE, NONE, NONE],
        fault: Some((1, 0, 0)),
    },
    Case {
        bytes: 95,
        puts: [NONE, NONE, NONE],
        fault: Some((1, 0, 0)),
    },
    Case {
        bytes: 97,
        puts: [NONE, NONE, NONE],
        fault: Some((1, 0, 0)),
    },
    Case {
        bytes: 96,
        puts: [NONE, NONE, NONE],
        fault: None,
    },
    Case {
        bytes: 513 * 96,
        puts: [NONE, NONE, NONE],
        fault: None,
    },
    Case {
        bytes: 514 * 96,
        puts: [NONE, NONE, NONE],
        fault: Some((2, 0, 0)),
    },
    Case {
        bytes: 514 * 96 + 1,
        puts: [NONE, NONE, NONE],
        fault: Some((1, 0, 0)),
    },
    // too many records are told before a set outside the facts in use
    Case {
        bytes: 514 * 96,
        puts: [(INITIAL, 1), NONE, NONE],
        fault: Some((2, 0, 0)),
    },
    // record 0, its fields in order
    Case {
        bytes: 96,
        puts: [(INITIAL, 1), NONE, NONE],
        fault: Some((3, 0, 0)),
    },
    Case {
        bytes: 96,
        puts: [(GOAL, 1), NONE, NONE],
        fault: Some((3, 0, 1)),
    },
    Case {
        bytes: 96,
        puts: [(GOAL, 1), (INITIAL, 1), NONE],
        fault: Some((3, 0, 0)),
    },
    Case {
        bytes: 96,
        puts: [(INITIAL + 31, 0x80), (FACTS + 31, 0x80), NONE],
        fault: None,
    },
    Case {
        bytes: 192,
        puts: [(GOAL, 1), (PRE, 1), NONE],
        fault: Some((3, 0, 1)),
    },
    // an action, its fields in order
    Case {
        bytes: 192,
        puts: [(PRE, 1), (DEL, 1), NONE],
        fault: Some((4, 1, 0)),
    },
    Case {
        bytes: 192,
        puts: [(ADD, 1), (DEL, 1), NONE],
        fault: Some((4, 1, 1)),
    },
    Case {
        bytes: 192,
        puts: [(DEL, 1), NONE, NONE],
        fault: Some((4, 1, 2)),
    },
    Case {
        bytes: 288,
        puts: [(NEXT_DEL, 1), (NEXT_PRE, 1), NONE],
        fault: Some((4, 2, 0)),
    },
    // an action that adds and deletes one fact, and records in order
    Case {
        bytes: 192,
        puts: [(FACTS, 1), (ADD, 1), (DEL, 1)],
        fault: Some((5, 1, 3)),
    },
    Case {
        bytes: 288,
        puts: [(FACTS, 1), (NEXT_PRE, 2), (PRE, 2)],
        fault: Some((4, 1, 0)),
    },
    Case {
        bytes: 192,
        puts: [(FACTS, 3), (ADD, 1), (DEL, 2)],
        fault: None,
    },
];

fn told(res: Result<(), Fault>) -> Option<(u8, usize, u8)> {
    let fault = res.err()?;
    Some((fault.cause.number(), fault.record, fault.field))
}

#[test]
fn causes(rt: HostRuntime) -> Result<(), Fail> {
    let mut task = Task::new(rt.alloc())?;
    for case in &CASES {
        let mut file = vec![in rt.alloc(); 0u8; case.bytes]?;
        for (at, byte) in &case.puts {
            put(&mut file, *at, *byte);
        }
        assert_eq!(rt; told(task.read(&file)), case.fault);
    }
    Ok(())
}

// A clash in one record is told before a set outside the facts in use in the next.
#[test]
fn records_in_order(rt: HostRuntime) -> Result<(), Fail> {
    let mut task = Task::new(rt.alloc())?;
    let mut file = [0u8; 288];
    put(&mut file, FACTS, 1);
    put(&mut file, ADD, 1);
    put(&mut file, DEL, 1);
    put(&mut file, NEXT_PRE, 2);
    assert_eq!(rt;
        task.read(&file),
        Err(Fault {
            cause: Cause::AddsAndDeletes,
            record: 1,
            field: 3,
        })
    );
    Ok(())
}

// The worked yard is read as its bytes say, and stays where a later file is refused.
#[test]
fn three_lifts_are_read(rt: HostRuntime) -> Result<(), Fail> {
    let mut task = task_of(&rt, &three_lifts())?;
    assert!(rt; task.read(&[0; 95]).is_err());
    assert_eq!(rt; task.action_count(), 3);
    assert_eq!(rt; task.initial(), set_of(&[]));
    assert_eq!(rt; task.goal(), set_of(&[1, 2]));
    assert_eq!(rt; task.facts(), set_of(&[0, 1, 2]));
    assert!(rt; task.admits(&set_of(&[2])) && !task.admits(&set_of(&[3])));
    let action = task.action(1).ok_or("no action 1")?;
    assert_eq!(rt; action.pre, set_of(&[0]));
    assert_eq!(rt; action.add, set_of(&[2]));
    assert_eq!(rt; action.del, set_of(&[]));
    assert!(rt; task.action(3).is_none());
    Ok(())
}

#[test]
fn sets(rt: HostRuntime) {
    let ends = set_of(&[0, 63, 64, 255]);
    assert!(rt; ends.contains(255u8) && !ends.contains(254u8));
    assert!(rt; set_of(&[63]).is_subset(&ends) && !ends.is_subset(&set_of(&[0, 63, 64])));
    assert!(rt; ends.intersects(&set_of(&[64])) && !ends.intersects(&set_of(&[65])));
    assert_eq!(rt; ends.missing(&set_of(&[0, 1, 64])), 2);
    assert_eq!(rt;
        ends.difference(&set_of(&[63, 7])).union(&set_of(&[7])),
        set_of(&[0, 7, 64, 255])
    );
    assert_eq!(rt; facts::FactSet::read(&ends.to_bytes(), 0), Some(ends));
    assert_eq!(rt; facts::FactSet::read(&ends.to_bytes(), 1), None);
}

use crate::yards::{put, set_of, task_of, three_lifts};
use planfile::{Fault, Flaw, Refusal, read, write};
use std::test::Fail;

// The file of the plan 2, 0, 1 for three lifts.
pub fn solution() -> [u8; 102] {
    let mut file = [0u8; 102];
    put(&mut file, 0, 2);
    put(&mut file, 2, 0x01);
    put(&mut file, 36, 0x03);
    put(&mut file, 68, 1);
    put(&mut file, 70, 0x07);
    file
}

// A byte put into the solution, and what the file is then.
struct Case {
    at: usize,
    byte: u8,
    reading: Result<(), Fault>,
}

const CASES: [Case; 8] = [
    Case {
        at: 0,
        byte: 2,
        reading: Ok(()),
    },
    Case {
        at: 0,
        byte: 3,
        reading: Err(Fault::Bad {
            record: 0,
            flaw: Flaw::NoSuchAction,
        }),
    },
    // the high byte counts
    Case {
        at: 35,
        byte: 1,
        reading: Err(Fault::Bad {
            record: 1,
            flaw: Flaw::NoSuchAction,
        }),
    },
    // an action that cannot be carried out is told before its state
    Case {
        at: 0,
        byte: 1,
        reading: Err(Fault::Bad {
            record: 0,
            flaw: Flaw::PreconditionFalse,
        }),
    },
    // each byte of a state counts, also past the facts in use
    Case {
        at: 2,
        byte: 0,
        reading: Err(Fault::Bad {
            record: 0,
            flaw: Flaw::StateDiffers,
        }),
    },
    Case {
        at: 67,
        byte: 0x80,
        reading: Err(Fault::Bad {
            record: 1,
            flaw: Flaw::StateDiffers,
        }),
    },
    // another right action with another state
    Case {
        at: 68,
        byte: 0,
        reading: Err(Fault::Bad {
            record: 2,
            flaw: Flaw::StateDiffers,
        }),
    },
    Case {
        at: 101,
        byte: 1,
        reading: Err(Fault::Bad {
            record: 2,
            flaw: Flaw::StateDiffers,
        }),
    },
];

#[test]
fn readings(rt: HostRuntime) -> Result<(), Fail> {
    let task = task_of(&rt, &three_lifts())?;
    for case in &CASES {
        let mut file = solution();
        put(&mut file, case.at, case.byte);
        assert_eq!(rt;
            read(&task, &task.initial(), &task.goal(), &file),
            case.reading
        );
    }
    Ok(())
}

// Goals that are false at the end are told with the number of records; a file with no records is a plan where they are true.
#[test]
fn ends(rt: HostRuntime) -> Result<(), Fail> {
    let task = task_of(&rt, &three_lifts())?;
    let start = task.initial();
    let goal = task.goal();
    let file = solution();
    assert_eq!(rt;
        read(&task, &start, &goal, &file[0..68]),
        Err(Fault::Bad {
            record: 2,
            flaw: Flaw::GoalsFalse,
        })
    );
    assert_eq!(rt;
        read(&task, &start, &goal, &[]),
        Err(Fault::Bad {
            record: 0,
            flaw: Flaw::GoalsFalse,
        })
    );
    assert_eq!(rt; read(&task, &goal, &goal, &[]), Ok(()));
    assert_eq!(rt; read(&task, &start, &set_of(&[]), &[]), Ok(()));
    Ok(())
}

// The size is tested first, then the start, then the goal.
#[test]
fn refusals(rt: HostRuntime) -> Result<(), Fail> {
    let task = task_of(&rt, &three_lifts())?;
    let start = task.initial();
    let goal = task.goal();
    let outside = set_of(&[3]);
    let file = solution();
    assert_eq!(rt;
        read(&task, &start, &goal, &file[0..101]),
        Err(Fault::Refused(Refusal::FileSize))
    );
    assert_eq!(rt;
        read(&task, &outside, &goal, &file[0..33]),
        Err(Fault::Refused(Refusal::FileSize))
    );
    assert_eq!(rt;
        read(&task, &outside, &goal, &file),
        Err(Fault::Refused(Refusal::OutsideFacts))
    );
    assert_eq!(rt;
        read(&task, &start, &outside, &file),
        Err(Fault::Refused(Refusal::OutsideFacts))
    );
    assert_eq!(rt; Refusal::FileSize.number(), 10);
    assert_eq!(rt; Refusal::OutsideFacts.number(), 6);
    assert_eq!(rt; Refusal::BufferTooShort.number(), 11);
    Ok(())
}

// Action 2 can be repeated for ever, so that files are as long as one likes.
#[test]
fn longest(rt: HostRuntime) -> Result<(), Fail> {
    let task = task_of(&rt, &three_lifts())?;
    let start = set_of(&[0]);
    let mut file = vec![in rt.alloc(); 0u8; 4096 * 34]?;
    let plan = vec![in rt.alloc(); 2u16; 4096]?;
    assert_eq!(rt;
        write(&task, &start, &plan, &mut file),
        Err(Fault::Refused(Refusal::FileSize))
    );
    assert!(rt; plan.len() == 4096 && file.len() == 4096 * 34);
    assert_eq!(rt;
        write(&task, &start, &plan[0..4095], &mut file),
        Ok(4095 * 34)
    );
    assert_eq!(rt; read(&task, &start, &start, &file[0..4095 * 34]), Ok(()));
    assert_eq!(rt;
        read(&task, &start, &start, &file),
        Err(Fault::Refused(Refusal::FileSize))
    );
    Ok(())
}

// What is written is the solution, and what stands behind it stays.
#[test]
fn writing(rt: HostRuntime) -> Result<(), Fail> {
    let task = task_of(&rt, &three_lifts())?;
    let mut out = [9u8; 104];
    assert_eq!(rt;
        write(&task, &task.initial(), &[2, 0, 1], &mut out),
        Ok(102)
    );
    assert!(rt; &out[0..102] == &solution()[0..102]);
    assert!(rt; out[102] == 9 && out[103] == 9);
    assert_eq!(rt; write(&task, &task.initial(), &[], &mut out), Ok(0));
    assert!(rt; &out[0..102] == &solution()[0..102]);
    Ok(())
}

// Nothing is written where the list does not run or does not fit: the list first, then the buffer.
#[test]
fn not_written(rt: HostRuntime) -> Result<(), Fail> {
    let task = task_of(&rt, &three_lifts())?;
    let start = task.initial();
    let mut out = [9u8; 101];
    assert_eq!(rt;
        write(&task, &set_of(&[3]), &[7], &mut out),
        Err(Fault::Refused(Refusal::OutsideFacts))
    );
    assert_eq!(rt;
        write(&task, &start, &[2, 3, 0], &mut out),
        Err(Fault::Bad {
            record: 1,
            flaw: Flaw::NoSuchAction,
        })
    );
    assert_eq!(rt;
        write(&task, &start, &[0, 2, 1], &mut out),
        Err(Fault::Bad {
            record: 0,
            flaw: Flaw::PreconditionFalse,
        })
    );
    assert_eq!(rt;
        write(&task, &start, &[2, 0, 1], &mut out),
        Err(Fault::Refused(Refusal::BufferTooShort))
    );
    assert!(rt; out == [9u8; 101]);
    Ok(())
}

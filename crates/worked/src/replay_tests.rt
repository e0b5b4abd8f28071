use crate::plan_tests::solution;
use crate::yards::{put, three_lifts};
use planfile::{Flaw, Refusal};
use std::process::Abort;
use std::test::Fail;
use strips::Cause;
use transcript::{Line, Replay};

// The lines for a plan file with one byte put into the solution.
fn replayed(
    rt: &(impl Abort + AllocGlobal),
    at: usize,
    byte: u8,
    expected: &[Line],
) -> Result<(), Fail> {
    let mut file = solution();
    put(&mut file, at, byte);
    let mut replay = Replay::new(rt.alloc())?;
    replay.run(&three_lifts(), &file);
    assert!(rt; replay.lines() == expected);
    Ok(())
}

#[test]
fn good_and_bad_files(rt: HostRuntime) -> Result<(), Fail> {
    let first = Line::Did { action: 2 };
    replayed(
        &rt,
        0,
        2,
        &[
            first,
            Line::Did { action: 0 },
            Line::Did { action: 1 },
            Line::Plan { records: 3 },
        ],
    )?;
    replayed(
        &rt,
        0,
        1,
        &[Line::Bad {
            record: 0,
            flaw: Flaw::PreconditionFalse,
        }],
    )?;
    replayed(
        &rt,
        36,
        1,
        &[
            first,
            Line::Bad {
                record: 1,
                flaw: Flaw::StateDiffers,
            },
        ],
    )
}

// A refused task is told before a refused plan file, and each alone.
#[test]
fn refused_files(rt: HostRuntime) -> Result<(), Fail> {
    let mut replay = Replay::new(rt.alloc())?;
    replay.run(&[0; 95], &[0; 33]);
    assert!(rt;
        replay.lines()
            == [Line::Task {
                cause: Cause::Length,
                record: 0,
            }]
            .as_slice()
    );
    replay.run(&three_lifts(), &[0; 33]);
    assert!(rt; replay.lines() == [Line::Refused(Refusal::FileSize)].as_slice());
    replay.run(&three_lifts(), &[]);
    assert!(rt;
        replay.lines()
            == [Line::Bad {
                record: 0,
                flaw: Flaw::GoalsFalse
            }]
            .as_slice()
    );
    Ok(())
}

// The numbers under which the lines of these tests are told.
#[test]
fn numbers_of_lines(rt: HostRuntime) -> Result<(), Fail> {
    assert_eq!(rt; Cause::Length.number(), 1);
    assert_eq!(rt; Refusal::FileSize.number(), 10);
    assert_eq!(rt; Flaw::PreconditionFalse.number(), 2);
    assert_eq!(rt; Flaw::StateDiffers.number(), 3);
    assert_eq!(rt; Flaw::GoalsFalse.number(), 4);
    Ok(())
}

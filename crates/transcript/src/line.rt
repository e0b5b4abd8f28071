ghost use Rattle.std.specs.Prelude.{Some};
ghost use Rattle.transcript.specs.Text.{text};

use planfile::{Flaw, Refusal};
use std::fmt;
use strips::Cause;

#[derive(Clone, Copy, PartialEq, Eq, Debug)]
pub enum Line {
    // the task file is refused, and at which record
    Task { cause: Cause, record: usize },
    // the plan file is refused
    Refused(Refusal),
    // this action was carried out
    Did { action: u16 },
    // the whole file is a plan of so many records
    Plan { records: usize },
    // the first bad record, and what is wrong with it
    Bad { record: usize, flaw: Flaw },
}

impl fmt::Display for Line {
    ghost output = { λ l. Some (text l) };

    fn fmt<W: fmt::Write>(&self, f: &mut fmt::Formatter<W>) -> fmt::Result {
        match self {
            Line::Task { cause, record } => write!(f, "task {} {record}", cause.number()),
            Line::Refused(refusal) => write!(f, "refused {}", refusal.number()),
            Line::Did { action } => write!(f, "did {action}"),
            Line::Plan { records } => write!(f, "plan {records}"),
            Line::Bad { record, flaw } => write!(f, "bad {record} {}", flaw.number()),
        }
    }
}

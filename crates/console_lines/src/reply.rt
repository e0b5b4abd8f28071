ghost use Rattle.console_lines.specs.Text.{text};
ghost use Rattle.std.specs.Prelude.{Some};

use std::fmt;

// A line that the console prints. Both counts are expansions, of hill-climbing and of the fallback. A refusal or a cause is the number that is printed, whichever crate refused, so this crate needs none of them.
#[derive(Clone, Copy, PartialEq, Eq, Debug)]
pub enum Reply {
    // there is a plan of so many actions
    Plan {
        length: u16,
        hill: u32,
        fallback: u32,
    },
    // no plan exists
    NoPlan {
        hill: u32,
        fallback: u32,
    },
    // the fallback budget is used
    Spent {
        hill: u32,
        fallback: u32,
    },
    // a new state found no place
    Full {
        hill: u32,
        fallback: u32,
    },
    // this action was issued and reported done
    Did {
        action: u16,
    },
    // this action was issued and reported not done
    NotDone {
        action: u16,
    },
    // there is no action to issue
    Idle,
    // the call is refused under this number
    Refused {
        number: u8,
    },
    // the line is no command
    Bad,
    // the task file is refused: the cause's number and the record
    Task {
        cause: u8,
        record: usize,
    },
}

impl fmt::Display for Reply {
    ghost output = { λ r. Some (text r) };

    fn fmt<W: fmt::Write>(&self, f: &mut fmt::Formatter<W>) -> fmt::Result {
        match self {
            Reply::Plan {
                length,
                hill,
                fallback,
            } => write!(f, "plan {length} {hill} {fallback}"),
            Reply::NoPlan { hill, fallback } => write!(f, "none {hill} {fallback}"),
            Reply::Spent { hill, fallback } => write!(f, "spent {hill} {fallback}"),
            Reply::Full { hill, fallback } => write!(f, "full {hill} {fallback}"),
            Reply::Did { action } => write!(f, "did {action}"),
            Reply::NotDone { action } => write!(f, "not {action}"),
            Reply::Idle => write!(f, "idle"),
            Reply::Refused { number } => write!(f, "refused {number}"),
            Reply::Bad => write!(f, "bad"),
            Reply::Task { cause, record } => write!(f, "task {cause} {record}"),
        }
    }
}

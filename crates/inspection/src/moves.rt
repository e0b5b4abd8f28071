ghost use Rattle.inspection.specs.Moves.{Moves};
ghost use Rattle.inspection.specs.MoveText.{move_text};
ghost use Rattle.std.specs.Prelude.{Some};

use crate::command::named_action;
use facts::FactSet;
use std::fmt;
use strips::Task;

// What came of a line of input: a line that is printed, in each of three cases.
#[derive(Clone, Copy, PartialEq, Eq, Debug)]
pub enum Move {
    // the action was carried out
    Did { action: u16 },
    // there is no such action, or it is not applicable
    Cannot { action: u16 },
    // the line names no action
    Bad,
}

impl fmt::Display for Move {
    ghost output = { λ m. Some (move_text m) };

    fn fmt<W: fmt::Write>(&self, f: &mut fmt::Formatter<W>) -> fmt::Result {
        match self {
            Move::Did { action } => write!(f, "did {action}"),
            Move::Cannot { action } => write!(f, "cannot {action}"),
            Move::Bad => write!(f, "bad"),
        }
    }
}

// Carries out the action that the line names, where it can be.
#[tactic(auto, using(crate::specs::Moves::bad, crate::specs::Moves::no_such_action, crate::specs::Moves::not_applicable))]
pub fn make_move(task: &Task, state: &mut FactSet, line: &[u8]) -> Move
    ensures { Moves task.now.actions.items state.old.words line.now result state.new.words }
{
    let Some(action) = named_action(line) else {
        return Move::Bad;
    };
    let Some(lift) = task.action(usize::from(action)) else {
        return Move::Cannot { action };
    };
    if !lift.is_applicable(state) {
        return Move::Cannot { action };
    }
    *state = lift.apply(state);
    Move::Did { action }
}

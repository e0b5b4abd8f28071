ghost use Rattle.std.specs.Prelude.{◌≡◌, ◌<◌, length, Some, None};
ghost use Rattle.console_lines.specs.Commands.{alone, budgets, command};
ghost use Rattle.console_lines.specs.Written.{Written};

use input_lines::{cut, number};

// What a line asks for.
#[derive(Clone, Copy, PartialEq, Eq, Debug)]
pub enum Command {
    // plan with these budgets
    Plan { hill: u32, fallback: u32 },
    // issue an order and report it done
    Step,
    // issue an order and report it not done
    Skip,
}

// A plan command, from what stands behind its letter.
fn plan(rest: &[u8]) -> Option<Command>
    ensures { result ≡ budgets rest.now }
{
    let [b' ', numbers @ ..] = rest else {
        return None;
    };
    let (hill, fallback) = cut(numbers, b' ');
    Some(Command::Plan {
        hill: number(hill)?,
        fallback: number(fallback)?,
    })
}

// A command that is its letter alone.
fn letter(meant: Command, rest: &[u8]) -> Option<Command>
    ensures { result ≡ alone meant rest.now }
{
    rest.is_empty().then_some(meant)
}

// The command by its letter.
fn dispatch(line: &[u8]) -> Option<Command>
    ensures { result ≡ command line.now }
{
    let (first, rest) = line.split_first()?;
    match char::from(*first) {
        'P' => plan(rest),
        'S' => letter(Command::Step, rest),
        'X' => letter(Command::Skip, rest),
        _ => None,
    }
}

// The command that a line is.
#[tactic(auto, using(crate::proofs::Grammar::long_none, crate::proofs::Grammar::read_written, crate::proofs::Grammar::written_read))]
pub fn parse(line: &[u8]) -> Option<Command>
    ensures value { result ≡ command line.now }
    ensures written { (c : Command) → result ≡ Some c → Written line.now c }
    ensures read { (c : Command) → Written line.now c → result ≡ Some c }
    ensures long { 32 < length line.now → result ≡ None }
{
    dispatch(line)
}

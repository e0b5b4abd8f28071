// The console's reply to what was read.
ghost use Rattle.std.specs.Prelude.{◌≡◌, [], None, IfSome};
ghost use Rattle.input_lines.specs.Cuts.{before};
ghost use Rattle.console_lines.specs.Commands.{command};
ghost use Rattle.commands.specs.Serves.{Desk, Serves};

use closed_list::Store;
use commands::Console;
use console_lines::Reply;
use heuristic::Estimator;
use input_lines::next_line;
use open_list::Frontier;

// Answers the first line of what was read; nothing exactly where nothing was, for then the input has ended.
pub(crate) fn answer<E: Estimator, F: Frontier, S: Store>(
    console: &mut Console<'_, E, F, S>,
    bytes: &[u8],
) -> Option<Reply>
    ensures serves { IfSome result (λ reply. Serves (record { estimate = E.meaning; prefers = E.prefers; store = S.room console.old.planner.searcher.store; frontier = F.room console.old.planner.frontier }) console.old.session (command (before 10 bytes.now)) reply console.new.session) }
    ensures more { result ≡ None → bytes.now ≡ [] }
    ensures end { bytes.now ≡ [] → result ≡ None }
{
    let (line, _) = next_line(bytes)?;
    Some(console.respond(line))
}

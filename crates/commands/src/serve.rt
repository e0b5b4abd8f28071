ghost use Rattle.std.specs.Prelude.{◌≡◌, Some};
ghost use Rattle.console_lines.specs.Commands.{command};
ghost use Rattle.session.specs.Numbers.{refusal_number};
ghost use Rattle.session.specs.Standing.{Stands};
ghost use Rattle.commands.specs.Serves.{Desk, Serves, command_of, refused_line, told};

use closed_list::Store;
use console_lines::{Command, Reply, parse};
use engine::{Budgets, Planner, Verdict};
use heuristic::Estimator;
use open_list::Frontier;
use session::{Refusal, Session};

// A console: its session, and what it plans with.
#[derive(Drop)]
pub struct Console<'t, E, F, S> {
    pub session: Session<'t>,
    pub planner: Planner<E, F, S>,
}

// How an order is answered. A closure in its place would need a `requires` that it takes the slip of the order just issued.
#[derive(Clone, Copy)]
pub(crate) enum Report {
    Done,
    NotDone,
}

// The line of a refusal. No `From` may stand here, nor for a verdict: both types are of other crates.
fn refused(refusal: Refusal) -> Reply
    ensures line { result ≡ Reply.Refused (refusal_number refusal) }
{
    Reply::Refused {
        number: refusal.number(),
    }
}

// The line of a refused issue.
fn unissued(refusal: Refusal) -> Reply
    ensures line { result ≡ refused_line (refusal_number refusal) }
{
    match refusal {
        Refusal::NothingToGive => Reply::Idle,
        _ => refused(refusal),
    }
}

// The line of a verdict with the expansions of both phases.
fn tell(verdict: Verdict, hill: u32, fallback: u32) -> Reply
    ensures line { result ≡ told verdict hill fallback }
{
    match verdict {
        Verdict::Plan(length) => Reply::Plan {
            length,
            hill,
            fallback,
        },
        Verdict::None => Reply::NoPlan { hill, fallback },
        Verdict::Spent => Reply::Spent { hill, fallback },
        Verdict::Full => Reply::Full { hill, fallback },
    }
}

// Issues an order and answers it at once.
#[tactic(auto, using(crate::proofs::Served::unordered, crate::proofs::Served::stepped, crate::proofs::Served::skipped))]
fn order(session: &mut Session<'_>, report: Report) -> Reply
    ensures serves { (d : Desk) → Serves d session.old (Some (command_of report)) result session.new }
{
    let slip = match session.issue() {
        Ok(slip) => slip,
        Err(refusal) => return unissued(refusal),
    };
    let action = slip.action();
    match report {
        Report::Done => match session.done(slip) {
            Ok(()) => Reply::Did { action },
            Err(_back) => unreachable!(),
        },
        Report::NotDone => match session.not_done(slip) {
            Ok(()) => Reply::NotDone { action },
            Err(_back) => unreachable!(),
        },
    }
}

// Carries out the command that a line is.
fn carry_out<E: Estimator, F: Frontier, S: Store>(
    session: &mut Session<'_>,
    estimator: &mut E,
    frontier: &mut F,
    store: &mut S,
    line: &[u8],
) -> Reply
    ensures serves { Serves (record { estimate = E.meaning; prefers = E.prefers; store = S.room store.old; frontier = F.room frontier.old }) session.old (command line.now) result session.new }
    ensures store_room { S.room store.new ≡ S.room store.old }
    ensures frontier_room { F.room frontier.new ≡ F.room frontier.old }
{
    let Some(asked) = parse(line) else {
        return Reply::Bad;
    };
    match asked {
        Command::Plan { hill, fallback } => {
            match session.plan_lent(estimator, frontier, store, Budgets { hill, fallback }) {
                Ok((verdict, climbed, tried)) => tell(verdict, climbed, tried),
                Err(refusal) => refused(refusal),
            }
        }
        Command::Step => order(session, Report::Done),
        Command::Skip => order(session, Report::NotDone),
    }
}

// Answers a line, for a session, an estimator and tables that are lent. What holds wherever a history of calls ends holds of the session after it.
pub fn respond<E: Estimator, F: Frontier, S: Store>(
    session: &mut Session<'_>,
    estimator: &mut E,
    frontier: &mut F,
    store: &mut S,
    line: &[u8],
) -> Reply
    ensures serves { Serves (record { estimate = E.meaning; prefers = E.prefers; store = S.room store.old; frontier = F.room frontier.old }) session.old (command line.now) result session.new }
    ensures stands { Stands session.new }
    ensures store_room { S.room store.new ≡ S.room store.old }
    ensures frontier_room { F.room frontier.new ≡ F.room frontier.old }
{
    let reply = carry_out(session, estimator, frontier, store, line);
    session.standing();
    reply
}

impl<'t, E: Estimator, F: Frontier, S: Store> Console<'t, E, F, S> {
    // Answers a line, as `respond` does.
    pub fn respond(&mut self, line: &[u8]) -> Reply
        ensures serves { Serves (record { estimate = E.meaning; prefers = E.prefers; store = S.room self.old.planner.searcher.store; frontier = F.room self.old.planner.frontier }) self.old.session (command line.now) result self.new.session }
        ensures stands { Stands self.new.session }
        ensures store_room { S.room self.new.planner.searcher.store ≡ S.room self.old.planner.searcher.store }
        ensures frontier_room { F.room self.new.planner.frontier ≡ F.room self.old.planner.frontier }
    {
        respond(
            &mut self.session,
            &mut self.planner.searcher.estimator,
            &mut self.planner.frontier,
            &mut self.planner.searcher.store,
            line,
        )
    }
}

ghost use Rattle.std.specs.Prelude.{◌≡◌, ◌+◌, ◌<◌, ◌≤◌, [], ◌++◌, map, length, IfOk, vec_len, vec_capacity};
ghost use Rattle.planfile.specs.File.{action_at};
ghost use Rattle.transcript.specs.Replays.{Ends, most_lines, Replays};
ghost use Rattle.transcript.specs.declared.line.Line.TheVariants.{Did};

use crate::line::Line;
use planfile::{Fault, Record, number_of, read, records};
use std::alloc::{AllocError, Global};
use strips::Task;

const MOST_LINES: usize = 4096;

// Carries out plan files. Its memory is got when it is made.
#[derive(Drop)]
pub struct Replay {
    task: Task,
    lines: Vec<Line>,
    ghost room: { most_lines ≤ vec_capacity lines },
}

// Adds the actions of records.
fn list(records: &[Record], lines: &mut Vec<Line>)
    requires { vec_len lines.old + length records.now ≤ vec_capacity lines.old }
    ensures items { lines.new.items ≡ lines.old.items ++ map (λ r. Did (action_at r 0)) records.now }
    ensures len { vec_len lines.new ≡ vec_len lines.old + length records.now }
    ensures capacity { vec_capacity lines.new ≡ vec_capacity lines.old }
{
    for record in records {
        lines.push_reserved(Line::Did {
            action: number_of(record),
        });
    }
}

// Adds the actions that the file carries out rightly, and answers how it ends.
fn follow(task: &Task, bytes: &[u8], lines: &mut Vec<Line>) -> Line
    requires lines_value { lines.old.items ≡ [] }
    requires most_lines_bound { most_lines ≤ vec_capacity lines.old }
    ensures ends { Ends task.now.facts.words task.now.actions.items task.now.initial.words task.now.goal.words bytes.now lines.new.items result }
    ensures len { vec_len lines.new < most_lines }
    ensures capacity { vec_capacity lines.new ≡ vec_capacity lines.old }
{
    let records = records(bytes);
    match read(task, &task.initial(), &task.goal(), bytes) {
        Ok(()) => {
            list(records, lines);
            Line::Plan {
                records: records.len(),
            }
        }
        Err(Fault::Refused(refusal)) => Line::Refused(refusal),
        Err(Fault::Bad { record, flaw }) => {
            list(&records[..record], lines);
            Line::Bad { record, flaw }
        }
    }
}

impl Replay {
    pub fn new(heap: Global) -> Result<Replay, AllocError>
        ensures { IfOk result (λ p. p.lines.items ≡ []) }
    {
        let task = Task::new(heap)?;
        let lines = Vec::with_capacity(heap, MOST_LINES)?;
        Ok(Replay { task, lines })
    }

    // Carries out the plan file on the task of the task file, from its initial state to its goal.
    pub fn run(&mut self, task_file: &[u8], plan_file: &[u8])
        ensures { Replays task_file.now plan_file.now self.new.lines.items }
    {
        self.lines.clear();
        let last = match self.task.read(task_file) {
            Ok(()) => follow(&self.task, plan_file, &mut self.lines),
            Err(fault) => Line::Task {
                cause: fault.cause,
                record: fault.record,
            },
        };
        self.lines.push_reserved(last);
    }

    // The lines of the last run.
    pub fn lines(&self) -> &[Line]
        ensures { result.now ≡ self.now.lines.items }
    {
        self.lines.as_slice()
    }
}

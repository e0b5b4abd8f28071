ghost use Rattle.std.specs.Prelude.{◌≡◌, ◌+◌, ◌*◌, ◌≤◌, ◌++◌, length, take, drop, IfOk, IfErr, OnOk};
ghost use Rattle.planfile.specs.File.{entry as entry_of, file as file_of, record_bytes};
ghost use Rattle.planfile.specs.Laws.{RoundTrip};
ghost use Rattle.planfile.specs.Writes.{Names, Writes};
ghost use Rattle.strips.specs.Semantics.{Run, State};

use crate::answer::{Fault, Refusal};
use crate::reader::{MOST_RECORDS, RECORD, Record};
use crate::steps::step;
use facts::FactSet;
use strips::Task;

// The record of an action that leads to the state.
fn entry(number: u16, state: &FactSet) -> Record
    ensures { result ≡ entry_of number state.now.words }
{
    let mut record = [0u8; RECORD];
    record[..2].copy_from_slice(&number.to_le_bytes());
    record[2..].copy_from_slice(&state.to_bytes());
    record
}

// Whether the list runs from the start; else the place at which it stops.
fn check_run(task: &Task, start: &FactSet, plan: &[u16]) -> Result<(), Fault>
    ensures runs { OnOk result ((t : State) × Run task.now.actions.items start.now.words plan.now t) }
    ensures stops { IfErr result (λ e. Names task.now.actions.items start.now.words plan.now e) }
{
    let mut state = *start;
    for (place, number) in plan.iter().enumerate() {
        state = step(task, &state, *number).map_err(|flaw| Fault::Bad {
            record: place,
            flaw,
        })?;
    }
    Ok(())
}

// Writes the file of a list that runs from the start.
fn fill(task: &Task, start: &FactSet, plan: &[u16], out: &mut [u8])
    requires run { (t : State) × Run task.now.actions.items start.now.words plan.now t }
    requires plan_in_bounds { record_bytes * length plan.now ≤ length out.old }
    ensures { out.new ≡ file_of task.now.actions.items start.now.words plan.now ++ drop (record_bytes * length plan.now) out.old }
{
    let mut state = *start;
    for (i, number) in plan.iter().enumerate() {
        state = step(task, &state, *number).unwrap();
        // A range, since nothing is known of a buffer's bytes once chunks of it were lent.
        let at = RECORD * i;
        out[at..at + RECORD].copy_from_slice(&entry(*number, &state));
    }
}

// Writes the file of a list of actions from the start on, and answers the bytes used. What stands behind them stays; where nothing can be written the whole buffer stays.
pub fn write(task: &Task, start: &FactSet, plan: &[u16], out: &mut [u8]) -> Result<usize, Fault>
    ensures writes { Writes task.now.facts.words task.now.actions.items start.now.words plan.now out.old result out.new }
    ensures reads_back { IfOk result (λ n. RoundTrip task.now.actions.items start.now.words plan.now (take n out.new)) }
{
    if plan.len() > MOST_RECORDS {
        return Err(Fault::Refused(Refusal::FileSize));
    }
    if !task.admits(start) {
        return Err(Fault::Refused(Refusal::OutsideFacts));
    }
    check_run(task, start, plan)?;
    let used = RECORD * plan.len();
    if out.len() < used {
        return Err(Fault::Refused(Refusal::BufferTooShort));
    }
    fill(task, start, plan, out);
    Ok(used)
}

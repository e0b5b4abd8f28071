ghost use Rattle.std.specs.Prelude.{◌≡◌, ◌↔◌, ◌<◌, ◌≤◌, None, length, IsOk, IsTrue, IfOk, IfErr, OnOk, MatchOption};
ghost use Rattle.facts.specs.Checks.{fault_in};
ghost use Rattle.facts.specs.Field.{bytes as bytes_of, field_bytes};
ghost use Rattle.planfile.specs.File.{action_at, record_count, records as records_of, state_at};
ghost use Rattle.planfile.specs.Laws.{Only, PlanFile};
ghost use Rattle.planfile.specs.Reads.{Flawed, read_refusal, Reads, refusal_in, Right};

use crate::answer::{Fault, Flaw, Refusal};
use crate::steps::step;
use facts::{BYTES, FactSet};
use strips::Task;

pub(crate) const RECORD: usize = 2 + BYTES;

pub(crate) const MOST_RECORDS: usize = 4095;

// an action number in two bytes, and the field of the state after the action
pub type Record = [u8; RECORD];

// How many records bytes have.
pub fn record_count(bytes: &[u8]) -> usize
    ensures { result ≡ record_count bytes.now }
{
    bytes.len() / RECORD
}

// The records that bytes have.
pub fn records(bytes: &[u8]) -> &[Record]
    ensures list { result.now ≡ records_of bytes.now }
    ensures count { length result.now ≡ record_count bytes.now }
{
    bytes.as_chunks::<RECORD>().0
}

// The action number of a record.
pub fn number_of(record: &Record) -> u16
    ensures { result ≡ action_at «record».now 0 }
{
    let [low, high, ..] = *record;
    u16::from_le_bytes([low, high])
}

// The action number of a record, where the bytes reach that far.
pub fn action_number(bytes: &[u8], record: usize) -> Option<u16>
    ensures number { MatchOption result (record_count bytes.now ≤ «record») (λ k. («record» < record_count bytes.now) × (k ≡ action_at bytes.now «record»)) }
{
    Some(number_of(records(bytes).get(record)?))
}

// Whether a record has the field of the state.
fn has_state(record: &Record, state: &FactSet) -> bool
    ensures { IsTrue result ↔ (state_at «record».now 0 ≡ bytes_of field_bytes state.now.words) }
{
    &record[2..] == state.to_bytes().as_slice()
}

// The state after a record, or what is wrong with it.
fn follow_record(task: &Task, state: &FactSet, record: &Record) -> Result<FactSet, Flaw>
    ensures right { IfOk result (λ t. Right task.now.actions.items «record».now 0 state.now.words t.words) }
    ensures flawed { IfErr result (λ f. Flawed task.now.actions.items «record».now 0 state.now.words f) }
{
    let next = step(task, state, number_of(record))?;
    if has_state(record, &next) {
        Ok(next)
    } else {
        Err(Flaw::StateDiffers)
    }
}

// What whole records are.
fn follow(task: &Task, start: &FactSet, goal: &FactSet, bytes: &[u8]) -> Result<(), Fault>
    ensures { Reads task.now.actions.items start.now.words goal.now.words bytes.now result }
{
    let records = records(bytes);
    let mut state = *start;
    for (k, record) in records.iter().enumerate() {
        state = follow_record(task, &state, record).map_err(|flaw| Fault::Bad { record: k, flaw })?;
    }
    if goal.is_subset(&state) {
        Ok(())
    } else {
        Err(Fault::Bad {
            record: records.len(),
            flaw: Flaw::GoalsFalse,
        })
    }
}

// The first check that fails.
#[tactic(auto, unfolding(crate::specs::Reads::read_refusal))]
fn check(task: &Task, start: &FactSet, goal: &FactSet, bytes: &[u8]) -> Result<(), Refusal>
    ensures { fault_in result ≡ read_refusal task.now.facts.words start.now.words goal.now.words bytes.now }
{
    if bytes.len() % RECORD != 0 || record_count(bytes) > MOST_RECORDS {
        return Err(Refusal::FileSize);
    }
    if !task.admits(start) || !task.admits(goal) {
        return Err(Refusal::OutsideFacts);
    }
    Ok(())
}

// Tells whether bytes are the file of a plan from the start to the goal, and where they first fail to be.
// A start and a goal come with no struct: callers hold each by itself, and the contract names each.
pub fn read(task: &Task, start: &FactSet, goal: &FactSet, bytes: &[u8]) -> Result<(), Fault>
    ensures refusal { refusal_in result ≡ read_refusal task.now.facts.words start.now.words goal.now.words bytes.now }
    ensures reading { refusal_in result ≡ None → Reads task.now.actions.items start.now.words goal.now.words bytes.now result }
    ensures only { refusal_in result ≡ None → Only task.now.actions.items start.now.words goal.now.words bytes.now result }
    ensures good_is_plan { OnOk result (PlanFile task.now.actions.items start.now.words goal.now.words bytes.now) }
    ensures plan_is_good { refusal_in result ≡ None → PlanFile task.now.actions.items start.now.words goal.now.words bytes.now → IsOk result }
{
    check(task, start, goal, bytes)?;
    follow(task, start, goal, bytes)
}

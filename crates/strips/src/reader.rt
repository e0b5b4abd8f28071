ghost use Rattle.std.specs.Prelude.{◌≡◌, ◌<◌, ◌≤◌, ◌∷◌, map, length, IfOk, vec_capacity, OnErr, OnOk};
ghost use Rattle.facts.specs.Checks.{fault_in, unless};
ghost use Rattle.facts.specs.Words.{subset};
ghost use Rattle.strips.specs.Holds.{Holds};
ghost use Rattle.strips.specs.Records.{action_fault, action_of, field as field_at, header_fault, records as records_of, records_fault, size_fault, task_fault};
ghost use Rattle.strips.specs.Sound.{most_actions};

use crate::action::Action;
use crate::fault::{Cause, Fault};
use crate::problem::{MOST_ACTIONS, Task};
use facts::{BYTES, FactSet};

const RECORD: usize = 3 * BYTES;

// three fields, each of them a set
type Record = [u8; RECORD];

// The first record of a file, and those of its actions; else the fault of its size.
#[tactic(auto, unfolding(crate::specs::Records::size_fault))]
fn split(bytes: &[u8]) -> Result<(&Record, &[Record]), Fault>
    ensures fault { fault_in result ≡ size_fault bytes.now }
    ensures records { IfOk result (λ r. r.0.now ∷ r.1.now ≡ records_of bytes.now) }
    ensures few { IfOk result (λ r. length r.1.now ≤ most_actions) }
{
    let (records, rest) = bytes.as_chunks::<RECORD>();
    if !rest.is_empty() {
        return Err(Fault::at(Cause::Length, 0, 0));
    }
    let Some((header, actions)) = records.split_first() else {
        return Err(Fault::at(Cause::Length, 0, 0));
    };
    if actions.len() > MOST_ACTIONS {
        return Err(Fault::at(Cause::TooManyRecords, 0, 0));
    }
    Ok((header, actions))
}

#[tactic(auto, unfolding(crate::specs::Records::field))]
fn read_field(record: &Record, field: u8) -> FactSet
    requires { field < 3 }
    ensures { result.words ≡ field_at «record».now 0 field }
{
    FactSet::read(record, BYTES * usize::from(field)).unwrap()
}

fn read_action(record: &Record) -> Action
    ensures { result ≡ action_of «record».now }
{
    Action {
        pre: read_field(record, 0),
        add: read_field(record, 1),
        del: read_field(record, 2),
    }
}

// Whether a set lies within the facts in use; else the fault given.
fn check_set(set: &FactSet, facts: &FactSet, fault: Fault) -> Result<(), Fault>
    ensures { fault_in result ≡ unless (subset set.now.words facts.now.words) fault }
{
    if set.is_subset(facts) {
        Ok(())
    } else {
        Err(fault)
    }
}

#[tactic(auto, unfolding(crate::specs::Records::header_fault))]
fn check_header(header: &Record) -> Result<(), Fault>
    ensures { fault_in result ≡ header_fault header.now }
{
    let facts = read_field(header, 2);
    let outside = |field: u8| Fault::at(Cause::HeaderOutside, 0, field);
    check_set(&read_field(header, 0), &facts, outside(0))?;
    check_set(&read_field(header, 1), &facts, outside(1))
}

// The first fault of an action that stands in the record of this number.
#[tactic(auto, unfolding(crate::specs::Records::action_fault, crate::specs::Sound::is_clash_free))]
fn check_action(action: &Action, facts: &FactSet, record: usize) -> Result<(), Fault>
    ensures { fault_in result ≡ action_fault action.now facts.now.words «record» }
{
    let outside = |field: u8| Fault::at(Cause::ActionOutside, record, field);
    check_set(&action.pre, facts, outside(0))?;
    check_set(&action.add, facts, outside(1))?;
    check_set(&action.del, facts, outside(2))?;
    if action.add.intersects(&action.del) {
        return Err(Fault::at(Cause::AddsAndDeletes, record, 3));
    }
    Ok(())
}

// The first fault of the records that follow the first.
#[tactic(auto, using(crate::proofs::Faults::first_stop))]
fn check_actions(records: &[Record], facts: &FactSet) -> Result<(), Fault>
    ensures { fault_in result ≡ records_fault records.now facts.now.words (length records.now) }
{
    for (k, record) in records.iter().enumerate() {
        check_action(&read_action(record), facts, k + 1)?;
    }
    Ok(())
}

// Puts the actions of records in the place of those that the list had.
fn fill_actions(records: &[Record], actions: &mut Vec<Action>)
    requires { length records.now ≤ vec_capacity actions.old }
    ensures items { actions.new.items ≡ map action_of records.now }
    ensures capacity { vec_capacity actions.new ≡ vec_capacity actions.old }
{
    actions.clear();
    for record in records {
        actions.push_reserved(read_action(record));
    }
}

impl Task {
    // Takes the task that the bytes describe in the place of the one that was here. A refusal changes nothing: all is tested before anything is written.
    pub fn read(&mut self, bytes: &[u8]) -> Result<(), Fault>
        ensures fault { fault_in result ≡ task_fault bytes.now }
        ensures taken { OnOk result (Holds self.new bytes.now) }
        ensures kept { OnErr result (self.new ≡ self.old) }
    {
        let (header, actions) = split(bytes)?;
        let facts = read_field(header, 2);
        check_header(header)?;
        check_actions(actions, &facts)?;
        self.facts = facts;
        self.initial = read_field(header, 0);
        self.goal = read_field(header, 1);
        fill_actions(actions, &mut self.actions);
        Ok(())
    }
}

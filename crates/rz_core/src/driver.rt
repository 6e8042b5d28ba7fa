//! The one driver: it reads the files of a plan, does its work, writes its files and puts its text.

ghost use Rattle.std.specs.Prelude.{◌≡◌, ◌≤◌, ◌↔◌, IsSome};
ghost use Rattle.rz_outside.specs.StoreCalls.{store_calls};
ghost use Rattle.rz_outside.specs.SinkCalls.{sink_calls};
ghost use Rattle.rz_core.specs.Commands.{command_of};
ghost use Rattle.rz_core.specs.Calls.Planned.{planned, IsPlan};
ghost use Rattle.rz_core.specs.Calls.Carried.{IsCarriedOut};
ghost use Rattle.rz_core.specs.Calls.Putting.{PutAfter, RefusedAfter, Runs};

use crate::outcome::Outcome;
use crate::perform::perform;
use crate::plan::Plan;
use crate::reading::read_files;
use crate::status::{Status, Target};
use crate::texts::refusal;
use crate::writing::write_files;
use rz_num::Bytes;
use rz_outside::{PutErr, Sink, Store};
use std::alloc::Global;

// Puts the text of a command that is done.
fn put<K: Sink>(out: &mut K, outcome: Outcome) -> Status
    ensures telling { IsSome (K.written out.new) ↔ IsSome (K.written out.old) }
    ensures count { K.faults out.old ≤ K.faults out.new }
    ensures after { PutAfter outcome (sink_calls K.Sink out.old out.new) result }
{
    let Outcome { status, text, .. } = outcome;
    match out.put(&text) {
        Ok(()) => status,
        Err(PutErr::Failed) => Status::WriteFault(Target::Text),
        Err(PutErr::OutOfMemory) => Status::OutOfMemory,
    }
}

/// Puts a refusal's text. A failing put doesn't change the status.
pub fn refuse<K: Sink>(alloc: Global, out: &mut K, status: Status) -> Status
    ensures telling { IsSome (K.written out.new) ↔ IsSome (K.written out.old) }
    ensures count { K.faults out.old ≤ K.faults out.new }
    ensures after { RefusedAfter status (sink_calls K.Sink out.old out.new) result }
{
    if matches!(&status, Status::OutOfMemory) {
        return status;
    }
    let Ok(text) = refusal(alloc, &status) else {
        return Status::OutOfMemory;
    };
    let Ok(bytes) = Bytes::from_slice(alloc, text.as_bytes()) else {
        return Status::OutOfMemory;
    };
    match out.put(&bytes) {
        Ok(()) | Err(PutErr::Failed) => status,
        Err(PutErr::OutOfMemory) => Status::OutOfMemory,
    }
}

// Carries out a plan, up to its text.
fn carry_out<S: Store>(alloc: Global, plan: &Plan, store: &mut S) -> Result<Outcome, Status>
    requires { IsPlan plan.now }
    ensures telling { S.told store.new ≡ S.told store.old }
    ensures count { S.faults store.old ≤ S.faults store.new }
    ensures carried { IsCarriedOut (command_of (planned plan.now))
        (store_calls S.Store store.old store.new) result }
{
    let files = read_files(alloc, store, plan.reads.as_slice())?;
    let outcome = perform(alloc, plan.verb, plan.values, &files)?;
    write_files(
        alloc,
        store,
        plan.writes.as_slice(),
        outcome.writes.as_slice(),
    )?;
    Ok(outcome)
}

/// Runs a plan.
pub fn run_plan<S: Store, K: Sink>(alloc: Global, plan: &Plan, store: &mut S, out: &mut K) -> Status
    requires { IsPlan plan.now }
    ensures telling { S.told store.new ≡ S.told store.old }
    ensures store_count { S.faults store.old ≤ S.faults store.new }
    ensures sink_telling { IsSome (K.written out.new) ↔ IsSome (K.written out.old) }
    ensures sink_count { K.faults out.old ≤ K.faults out.new }
    ensures run { Runs (command_of (planned plan.now))
        (store_calls S.Store store.old store.new) (sink_calls K.Sink out.old out.new) result }
{
    match carry_out(alloc, plan, store) {
        Ok(outcome) => put(out, outcome),
        Err(status) => refuse(alloc, out, status),
    }
}

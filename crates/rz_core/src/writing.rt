//! Writes the files of a plan.

ghost use Rattle.std.specs.Prelude.{◌≡◌, ◌≤◌, length, IfErr, OnOk};
ghost use Rattle.rz_outside.specs.StoreCalls.{store_calls};
ghost use Rattle.rz_outside.specs.StoreAnswers.{SameOthers};
ghost use Rattle.rz_core.specs.Writing.{AreDistinct, OthersStay, AreWritten, IsWritten, WriteRefusal, OneRefusal};

use crate::status::{Status, Target};
use rz_num::{Bytes, Text};
use rz_outside::{Store, WriteErr};
use std::alloc::Global;

// Writes the bytes to the file of a name, or gives the refusal.
fn write<S: Store>(alloc: Global, store: &mut S, name: &Text, bytes: &Bytes) -> Result<(), Status>
    ensures telling { S.told store.new ≡ S.told store.old }
    ensures others { SameOthers name.now (S.files store.old) (S.files store.new) }
    ensures count { S.faults store.old ≤ S.faults store.new }
    ensures wrote { OnOk result (IsWritten (store_calls S.Store store.old store.new) name.now bytes.now) }
    ensures cause { IfErr result
        (OneRefusal name.now bytes.now (store_calls S.Store store.old store.new)) }
{
    match store.write_all(alloc, name, bytes) {
        Ok(()) => Ok(()),
        Err(WriteErr::Failed) => Err(Status::WriteFault(Target::File)),
        Err(WriteErr::OutOfMemory) => Err(Status::OutOfMemory),
    }
}

/// Writes files in order, or gives the refusal of the first that is refused.
pub fn write_files<S: Store>(
    alloc: Global,
    store: &mut S,
    names: &[Text],
    writes: &[Bytes],
) -> Result<(), Status>
    requires distinct { AreDistinct names.now }
    requires many { length writes.now ≡ length names.now }
    ensures telling { S.told store.new ≡ S.told store.old }
    ensures count { S.faults store.old ≤ S.faults store.new }
    ensures others { OthersStay names.now (store_calls S.Store store.old store.new) }
    ensures wrote { OnOk result
        (AreWritten (store_calls S.Store store.old store.new) names.now writes.now) }
    ensures cause { IfErr result
        (WriteRefusal names.now writes.now (store_calls S.Store store.old store.new)) }
{
    match names {
        [] => Ok(()),
        [name, rest @ ..] => {
            write(alloc, store, name, &writes[0])?;
            write_files(alloc, store, rest, &writes[1..])
        }
    }
}

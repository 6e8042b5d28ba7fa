//! The command `label`: a written file with sections for its parts.

ghost use Rattle.std.specs.Prelude.{◌≡◌, ◌≢◌, ◌≤◌, length, None, IfOk, IfErr};
ghost use Rattle.std.specs.List.{All};
ghost use Rattle.rz_elf.specs.Elf.{fault_of, image_of};
ghost use Rattle.rz_elf.specs.Loaded.{IsRead, elf_of};
ghost use Rattle.rz_elf.specs.Stamped.{stamp_of};
ghost use Rattle.rz_label.specs.Labelled.{labelled_len as len_of};
ghost use Rattle.rz_core.specs.Reading.{exe_of, read_in};
ghost use Rattle.rz_core.specs.Command.{IsDoneBy};
ghost use Rattle.rz_core.specs.Texts.{labelled_text};
ghost use Rattle.rz_core.specs.Labelled.{IsLabelled, label_work};
ghost use Rattle.rz_core.specs.Calls.Labelled.{IsLabelWritten};
ghost use Rattle.rz_core.specs.Calls.Taking.{CanLabel};
ghost use Rattle.rz_core.specs.Calls.Outcomes.{OwnRefusal};

use crate::files::Files;
use crate::making::Made;
use crate::outcome::Outcome;
use crate::status::Status;
use crate::texts;
use rz_elf::elf::Elf;
use rz_elf::room::Room;
use rz_label::label::{label as label_file, labelled_len};
use rz_num::{Bytes, OutOfMemory};
use std::alloc::Global;

// How many bytes a labelled file may have.
const BYTES_MAX: u64 = 67_108_864;

/// `label NEW OUT`. There is no room where OUT would have more than 67,108,864 bytes.
pub fn label(alloc: Global, files: &Files) -> Result<Outcome, Status>
    requires one { length files.now.executables.items ≡ 1 }
    requires read { All IsRead files.now.executables.items }
    requires fit { CanLabel (elf_of (exe_of (read_in files.now))) }
    ensures done { IfOk result (IsDoneBy label_work 1 (read_in files.now)) }
    ensures refused { IfErr result (OwnRefusal label_work (read_in files.now)) }
{
    let new = files.exe();
    if labelled_len(new) > BYTES_MAX {
        return Err(Status::NoRoom(Room::Length));
    }
    match write_labelled(alloc, new) {
        Ok(outcome) => Ok(outcome),
        Err(OutOfMemory) => Err(Status::OutOfMemory),
    }
}

// Writes the labelled file of a written file.
fn write_labelled(alloc: Global, new: &Elf) -> Result<Outcome, OutOfMemory>
    requires read { IsRead new.now }
    requires fit { CanLabel new.now }
    requires short { len_of (length new.now.bytes) ≤ 67108864 }
    ensures { IfOk result (IsLabelWritten new.now.bytes) }
{
    let made = make_labelled(alloc, new)?;
    Outcome::wrote(alloc, made)
}

// The labelled file of a written file, and what is said of it.
fn make_labelled(alloc: Global, new: &Elf) -> Result<Made, OutOfMemory>
    requires read { IsRead new.now }
    requires fit { CanLabel new.now }
    requires short { len_of (length new.now.bytes) ≤ 67108864 }
    ensures file { IfOk result (λ m. IsLabelled new.now.bytes m.bytes) }
    ensures report { IfOk result (λ m. m.report ≡ labelled_text (length m.bytes)) }
{
    let bytes = label_file(alloc, new)?;
    let text = texts::labelled(alloc, bytes.as_slice().len() as u64)?;
    let report = Bytes::from_slice(alloc, text.as_bytes())?;
    Ok(Made { bytes, report })
}

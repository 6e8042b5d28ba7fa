//! The command `check`: whether a file is accepted, and what it loads.

ghost use Rattle.std.specs.Prelude.{◌≡◌, length, IfOk};
ghost use Rattle.std.specs.List.{All};
ghost use Rattle.rz_elf.specs.Loaded.{IsRead};
ghost use Rattle.rz_core.specs.Reading.{read_in};
ghost use Rattle.rz_core.specs.Command.{IsDoneBy};
ghost use Rattle.rz_core.specs.Checked.{checked_text, check_work};

use crate::files::Files;
use crate::outcome::Outcome;
use crate::status::Status;
use crate::texts;
use rz_elf::elf::Elf;
use rz_num::{Bytes, OutOfMemory};
use std::alloc::Global;

/// `check EXE`.
pub fn check(alloc: Global, files: &Files) -> Result<Outcome, OutOfMemory>
    requires one { length files.now.executables.items ≡ 1 }
    requires read { All IsRead files.now.executables.items }
    ensures { IfOk result (IsDoneBy check_work 0 (read_in files.now)) }
{
    let text = text_of(alloc, files.exe())?;
    Ok(Outcome::said(alloc, Status::Ok, text))
}

// What is said of a file.
fn text_of(alloc: Global, elf: &Elf) -> Result<Bytes, OutOfMemory>
    ensures { IfOk result (λ text. text ≡ checked_text elf.now.bytes) }
{
    let loads = elf.loads.as_slice().len() as u64;
    let text = texts::check(alloc, loads, elf.entry, elf.first_break)?;
    Bytes::from_slice(alloc, text.as_bytes())
}

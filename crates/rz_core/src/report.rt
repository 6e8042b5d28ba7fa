//! The command `report`: an old and a new file measured.

ghost use Rattle.std.specs.Prelude.{◌≡◌, length, IfOk};
ghost use Rattle.std.specs.List.{All};
ghost use Rattle.rz_elf.specs.Loaded.{IsRead};
ghost use Rattle.rz_core.specs.Reading.{read_in};
ghost use Rattle.rz_core.specs.Command.{IsDoneBy};
ghost use Rattle.rz_core.specs.Paired.{paired_text, report_work};

use crate::files::Files;
use crate::outcome::Outcome;
use crate::status::Status;
use rz_elf::elf::Elf;
use rz_num::{Bytes, OutOfMemory};
use rz_report::pair::pair_report;
use std::alloc::Global;

/// `report EXE NEW`.
pub fn report(alloc: Global, files: &Files) -> Result<Outcome, OutOfMemory>
    requires two { length files.now.executables.items ≡ 2 }
    requires read { All IsRead files.now.executables.items }
    ensures { IfOk result (IsDoneBy report_work 0 (read_in files.now)) }
{
    let text = report_on(alloc, files.exe(), files.new_file())?;
    Ok(Outcome::said(alloc, Status::Ok, text))
}

// What is said of an old and a new file.
fn report_on(alloc: Global, old: &Elf, new: &Elf) -> Result<Bytes, OutOfMemory>
    requires old { IsRead old.now }
    requires new { IsRead new.now }
    ensures { IfOk result (λ text. text ≡ paired_text old.now.bytes new.now.bytes) }
{
    pair_report(alloc, old, new)
}

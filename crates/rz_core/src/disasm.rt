//! The command `disasm`: the instructions of a file from an address on.

ghost use Rattle.std.specs.Prelude.{◌≡◌, length, IfOk};
ghost use Rattle.std.specs.List.{All};
ghost use Rattle.rz_elf.specs.Loaded.{IsRead};
ghost use Rattle.rz_core.specs.Reading.{read_in};
ghost use Rattle.rz_core.specs.Command.{IsDoneBy};
ghost use Rattle.rz_core.specs.Listed.{disasm_work};

use crate::decoding::Decoding;
use crate::files::Files;
use crate::outcome::Outcome;
use crate::status::Status;
use rz_listing::listing;
use rz_num::OutOfMemory;
use std::alloc::Global;

/// `disasm EXE ADDR COUNT`: at most so many lines.
pub fn disasm(alloc: Global, files: &Files, at: u64, count: u32) -> Result<Outcome, OutOfMemory>
    requires one { length files.now.executables.items ≡ 1 }
    requires read { All IsRead files.now.executables.items }
    ensures { IfOk result (IsDoneBy (disasm_work at count) 0 (read_in files.now)) }
{
    let text = listing::<Decoding>(alloc, files.exe(), at, count)?;
    Ok(Outcome::said(alloc, Status::Ok, text))
}

//! The command `functions`: what a level keeps of each function that a file names.

ghost use Rattle.std.specs.Prelude.{◌≡◌, ◌≤◌, length, IfOk, IfErr};
ghost use Rattle.std.specs.List.{All};
ghost use Rattle.rz_sys.specs.Input.{IsValid};
ghost use Rattle.rz_elf.specs.Loaded.{IsRead};
ghost use Rattle.rz_core.specs.Reading.{read_in};
ghost use Rattle.rz_core.specs.Command.{IsDoneBy};
ghost use Rattle.rz_core.specs.Named.{functions_work};
ghost use Rattle.rz_core.specs.Calls.Outcomes.{OwnRefusal};

use crate::files::Files;
use crate::making::list_kept;
use crate::names::first_names;
use crate::outcome::Outcome;
use crate::status::Status;
use rz_paths::Level;
use std::alloc::Global;

/// `functions EXE CLASSES LEVEL LIMIT INPUT..`, with the first `limit` steps of each run.
pub fn functions(alloc: Global, files: &Files, level: Level, limit: u64) -> Result<Outcome, Status>
    requires one { length files.now.executables.items ≡ 1 }
    requires read { All IsRead files.now.executables.items }
    requires runs { 1 ≤ length files.now.inputs.items }
    requires valid { All IsValid files.now.inputs.items }
    requires some { 1 ≤ limit }
    ensures done { IfOk result (IsDoneBy (functions_work level limit) 0 (read_in files.now)) }
    ensures refused { IfErr result (OwnRefusal (functions_work level limit) (read_in files.now)) }
{
    let inputs = files.inputs.as_slice();
    let Ok(symbols) = first_names(alloc, files.executables.as_slice()) else {
        return Err(Status::OutOfMemory);
    };
    let text = list_kept(
        alloc,
        files.exe(),
        &files.functions,
        inputs,
        level,
        limit,
        &symbols,
    )?;
    Ok(Outcome::said(alloc, Status::Ok, text))
}

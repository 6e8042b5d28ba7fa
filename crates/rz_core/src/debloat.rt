//! The command `debloat`: the new file of what a level keeps of the runs on inputs.

ghost use Rattle.std.specs.Prelude.{◌≡◌, ◌≤◌, length, IfOk, IfErr};
ghost use Rattle.std.specs.List.{All};
ghost use Rattle.rz_sys.specs.Input.{IsValid};
ghost use Rattle.rz_elf.specs.Loaded.{IsRead};
ghost use Rattle.rz_core.specs.Reading.{read_in};
ghost use Rattle.rz_core.specs.Command.{IsDoneBy};
ghost use Rattle.rz_core.specs.Debloated.{debloat_work};
ghost use Rattle.rz_core.specs.Calls.Outcomes.{OwnRefusal};

use crate::files::Files;
use crate::making::make;
use crate::outcome::Outcome;
use crate::status::Status;
use rz_num::OutOfMemory;
use rz_paths::Level;
use std::alloc::Global;

/// `debloat EXE CLASSES LEVEL LIMIT OUT INPUT..`, with the first `limit` steps of each run.
pub fn debloat(alloc: Global, files: &Files, level: Level, limit: u64) -> Result<Outcome, Status>
    requires one { length files.now.executables.items ≡ 1 }
    requires read { All IsRead files.now.executables.items }
    requires runs { 1 ≤ length files.now.inputs.items }
    requires valid { All IsValid files.now.inputs.items }
    requires some { 1 ≤ limit }
    ensures done { IfOk result (IsDoneBy (debloat_work level limit) 1 (read_in files.now)) }
    ensures refused { IfErr result (OwnRefusal (debloat_work level limit) (read_in files.now)) }
{
    let inputs = files.inputs.as_slice();
    let made = make(alloc, files.exe(), &files.functions, inputs, level, limit)?;
    match Outcome::wrote(alloc, made) {
        Ok(outcome) => Ok(outcome),
        Err(OutOfMemory) => Err(Status::OutOfMemory),
    }
}

//! The command `trace`: the trace file of the runs on inputs.

ghost use Rattle.std.specs.Prelude.{◌≡◌, ◌≤◌, length, IfOk, IfErr};
ghost use Rattle.std.specs.List.{All};
ghost use Rattle.rz_sys.specs.Input.{IsValid};
ghost use Rattle.rz_elf.specs.Loaded.{IsRead};
ghost use Rattle.rz_core.specs.Reading.{read_in};
ghost use Rattle.rz_core.specs.Command.{IsDoneBy};
ghost use Rattle.rz_core.specs.Recorded.{trace_work};
ghost use Rattle.rz_core.specs.Calls.Outcomes.{OwnRefusal};

use crate::files::Files;
use crate::making::make_trace;
use crate::outcome::Outcome;
use crate::status::Status;
use rz_num::OutOfMemory;
use std::alloc::Global;

/// `trace EXE LIMIT OUT INPUT..`, with the first `limit` steps of each run.
pub fn trace(alloc: Global, files: &Files, limit: u64) -> Result<Outcome, Status>
    requires one { length files.now.executables.items ≡ 1 }
    requires read { All IsRead files.now.executables.items }
    requires runs { 1 ≤ length files.now.inputs.items }
    requires valid { All IsValid files.now.inputs.items }
    requires some { 1 ≤ limit }
    ensures done { IfOk result (IsDoneBy (trace_work limit) 1 (read_in files.now)) }
    ensures refused { IfErr result (OwnRefusal (trace_work limit) (read_in files.now)) }
{
    let made = make_trace(alloc, files.exe(), files.inputs.as_slice(), limit)?;
    match Outcome::wrote(alloc, made) {
        Ok(outcome) => Ok(outcome),
        Err(OutOfMemory) => Err(Status::OutOfMemory),
    }
}

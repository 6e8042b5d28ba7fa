//! The command `run`: how a file runs on an input.

ghost use Rattle.std.specs.Prelude.{◌≡◌, ◌≤◌, length, IfOk};
ghost use Rattle.std.specs.List.{All};
ghost use Rattle.rz_sys.specs.Input.{IsValid};
ghost use Rattle.rz_elf.specs.Loaded.{IsRead};
ghost use Rattle.rz_core.specs.Reading.{read_in};
ghost use Rattle.rz_core.specs.Command.{IsDoneBy};
ghost use Rattle.rz_core.specs.Ran.{run_work};
ghost use Rattle.rz_core.specs.Calls.Running.{IsRan, status_at as status_at_stub};

use crate::decoding::Decoding;
use crate::files::Files;
use crate::outcome::Outcome;
use crate::status::Status;
use rz_elf::elf::Elf;
use rz_machine::start::start;
use rz_machine::stub::stub_word;
use rz_num::OutOfMemory;
use rz_replay::run_text::run_text;
use rz_sys::input::Input;
use std::alloc::Global;

/// `run EXE LIMIT INPUT`, for at most `limit` steps. The status is `StubStop` where the run ended at a stub.
pub fn run(alloc: Global, files: &Files, limit: u64) -> Result<Outcome, OutOfMemory>
    requires one { length files.now.executables.items ≡ 1 }
    requires read { All IsRead files.now.executables.items }
    requires some { 1 ≤ length files.now.inputs.items }
    requires valid { All IsValid files.now.inputs.items }
    ensures { IfOk result (IsDoneBy (run_work limit) 0 (read_in files.now)) }
{
    run_program(alloc, files.exe(), files.input(), limit)
}

// Runs a file on an input for at most `limit` steps.
fn run_program(alloc: Global, elf: &Elf, input: &Input, limit: u64) -> Result<Outcome, OutOfMemory>
    requires read { IsRead elf.now }
    requires valid { IsValid input.now }
    ensures { IfOk result (IsRan limit elf.now.bytes input.now) }
{
    let mut machine = start(alloc, elf, input)?;
    machine.run::<Decoding>(alloc, limit)?;
    let text = run_text(alloc, &machine, elf)?;
    let status = status_at(stub_word(elf, &machine));
    Ok(Outcome::said(alloc, status, text))
}

// The status of a run that ended at this stub, or at none.
fn status_at(stub: Option<u64>) -> Status
    ensures { result ≡ status_at_stub stub }
{
    match stub {
        Some(source) => Status::StubStop { source },
        None => Status::Ok,
    }
}

//! The command `replay`: whether a new file does what an old one does, on an input.

ghost use Rattle.std.specs.Prelude.{◌≡◌, ◌≤◌, length, IfOk};
ghost use Rattle.std.specs.List.{All};
ghost use Rattle.rz_sys.specs.Input.{IsValid};
ghost use Rattle.rz_elf.specs.Loaded.{IsRead};
ghost use Rattle.rz_core.specs.Reading.{read_in};
ghost use Rattle.rz_core.specs.Command.{IsDoneBy};
ghost use Rattle.rz_core.specs.Replayed.{status_by, replay_work};
ghost use Rattle.rz_core.specs.Calls.Replaying.{IsReplayed};

use crate::decoding::Decoding;
use crate::files::Files;
use crate::outcome::Outcome;
use crate::status::Status;
use crate::texts;
use rz_elf::elf::Elf;
use rz_num::{Bytes, OutOfMemory};
use rz_replay::compare::{Verdict, compare};
use rz_sys::input::Input;
use std::alloc::Global;

/// `replay EXE NEW LIMIT INPUT`, with EXE run for at most `limit` steps. The status is `Differ` where NEW does something
/// else, and `StubStop` where its run ended at a stub.
pub fn replay(alloc: Global, files: &Files, limit: u64) -> Result<Outcome, OutOfMemory>
    requires two { length files.now.executables.items ≡ 2 }
    requires read { All IsRead files.now.executables.items }
    requires some { 1 ≤ length files.now.inputs.items }
    requires valid { All IsValid files.now.inputs.items }
    requires limit { limit ≤ 1000000000 }
    ensures { IfOk result (IsDoneBy (replay_work limit) 0 (read_in files.now)) }
{
    replay_on(alloc, files.exe(), files.new_file(), files.input(), limit)
}

// Compares two files on an input, the old one run for at most `limit` steps.
fn replay_on(
    alloc: Global,
    old: &Elf,
    new: &Elf,
    input: &Input,
    limit: u64,
) -> Result<Outcome, OutOfMemory>
    requires old { IsRead old.now }
    requires new { IsRead new.now }
    requires valid { IsValid input.now }
    requires limit { limit ≤ 1000000000 }
    ensures { IfOk result (IsReplayed limit old.now.bytes new.now.bytes input.now) }
{
    let verdict = compare::<Decoding>(alloc, old, new, limit, input)?;
    let text = texts::verdict(alloc, verdict)?;
    let bytes = Bytes::from_slice(alloc, text.as_bytes())?;
    Ok(Outcome::said(alloc, status_of(verdict), bytes))
}

// The status that a verdict gives.
fn status_of(verdict: Verdict) -> Status
    ensures { result ≡ status_by verdict }
{
    match verdict {
        Verdict::Same(_) => Status::Ok,
        Verdict::Differ(event) => Status::Differ { event },
        Verdict::Stub(source) => Status::StubStop { source },
    }
}

//! The work of each verb, as a function of what was read.

ghost use Rattle.std.specs.Prelude.{◌≡◌, IfOk, IfErr};
ghost use Rattle.std.specs.List.{All};
ghost use Rattle.rz_sys.specs.Input.{IsValid};
ghost use Rattle.rz_elf.specs.Loaded.{IsRead};
ghost use Rattle.rz_core.specs.Reading.{read_in};
ghost use Rattle.rz_core.specs.Command.{IsDoneBy};
ghost use Rattle.rz_core.specs.Words.{places_of};
ghost use Rattle.rz_core.specs.Commands.{work_of};
ghost use Rattle.rz_core.specs.Calls.Planned.{Serves, writes_in};
ghost use Rattle.rz_core.specs.Calls.Outcomes.{OwnRefusal, or_memory_of};

use crate::check::check;
use crate::debloat::debloat;
use crate::demo::demo;
use crate::disasm::disasm;
use crate::files::Files;
use crate::functions::functions;
use crate::generate::generate;
use crate::label::label;
use crate::outcome::Outcome;
use crate::plan::{Values, Verb};
use crate::replay::replay;
use crate::report::report;
use crate::run::run;
use crate::status::Status;
use crate::trace::trace;
use rz_num::OutOfMemory;
use std::alloc::Global;

// An outcome, or want of memory.
fn or_memory(outcome: Result<Outcome, OutOfMemory>) -> Result<Outcome, Status>
    ensures { result ≡ or_memory_of outcome }
{
    match outcome {
        Ok(outcome) => Ok(outcome),
        Err(OutOfMemory) => Err(Status::OutOfMemory),
    }
}

/// What the work of a verb gives where this was read, or its refusal.
pub fn perform(alloc: Global, verb: Verb, values: Values, files: &Files) -> Result<Outcome, Status>
    requires serves { Serves verb values (read_in files.now) }
    requires read { All IsRead files.now.executables.items }
    requires valid { All IsValid files.now.inputs.items }
    ensures done { IfOk result
        (IsDoneBy (work_of verb values) (writes_in (places_of verb)) (read_in files.now)) }
    ensures refused { IfErr result (OwnRefusal (work_of verb values) (read_in files.now)) }
{
    let number = values.number;
    match verb {
        Verb::Debloat => debloat(alloc, files, values.level, number),
        Verb::Check => or_memory(check(alloc, files)),
        Verb::Disasm => or_memory(disasm(alloc, files, values.address, number as u32)),
        Verb::Generate => or_memory(generate(alloc, number as u32)),
        Verb::Run => or_memory(run(alloc, files, number)),
        Verb::Trace => trace(alloc, files, number),
        Verb::Replay => or_memory(replay(alloc, files, number)),
        Verb::Report => or_memory(report(alloc, files)),
        Verb::Demo => demo(alloc, number as u32),
        Verb::Functions => functions(alloc, files, values.level, number),
        Verb::Label => label(alloc, files),
    }
}

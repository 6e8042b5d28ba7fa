//! The command `gen`: a generated program.

ghost use Rattle.std.specs.Prelude.{◌≡◌, ◌≤◌, length, IfOk};
ghost use Rattle.rz_gen.specs.Generated.{generated as generated_file};
ghost use Rattle.rz_core.specs.Texts.{generated_text};
ghost use Rattle.rz_core.specs.Reading.{Read};
ghost use Rattle.rz_core.specs.Command.{IsDoneBy};
ghost use Rattle.rz_core.specs.Generated.{generate_work};

use crate::making::Made;
use crate::outcome::Outcome;
use crate::texts;
use rz_gen::gen_file;
use rz_num::{Bytes, OutOfMemory};
use std::alloc::Global;

/// `gen N OUT`, of so many functions.
pub fn generate(alloc: Global, count: u32) -> Result<Outcome, OutOfMemory>
    requires { (1 ≤ count) × (count ≤ 4000) }
    ensures { IfOk result (λ o. (r : Read) → IsDoneBy (generate_work count) 1 r o) }
{
    let made = generated(alloc, count)?;
    Outcome::wrote(alloc, made)
}

// The generated file, and what is said of it.
fn generated(alloc: Global, count: u32) -> Result<Made, OutOfMemory>
    requires { (1 ≤ count) × (count ≤ 4000) }
    ensures bytes { IfOk result (λ m. m.bytes ≡ generated_file count) }
    ensures report { IfOk result (λ m. m.report ≡ generated_text (length (generated_file count))) }
{
    let bytes = gen_file(alloc, count)?;
    let text = texts::generated(alloc, bytes.as_slice().len() as u64)?;
    let report = Bytes::from_slice(alloc, text.as_bytes())?;
    Ok(Made { bytes, report })
}

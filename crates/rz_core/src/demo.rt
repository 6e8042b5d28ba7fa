//! The command `demo`: a generated program is debloated, and what is written is compared with it.

ghost use Rattle.std.specs.Prelude.{◌≡◌, ◌≤◌, [], ◌∷◌, ◌++◌, None, IfOk, IfErr, string_bytes};
ghost use Rattle.rz_elf.specs.Elf.{fault_of};
ghost use Rattle.rz_elf.specs.Loaded.{IsRead, elf_of};
ghost use Rattle.rz_sys.specs.Input.{empty_input};
ghost use Rattle.rz_gen.specs.declared.file.TheConstants.{GEN_STEPS_LIMIT as LIMIT};
ghost use Rattle.rz_gen.specs.Generated.{generated};
ghost use Rattle.rz_paths.specs.declared.level.Level.TheVariants as level;
ghost use Rattle.rz_machine.specs.Until.{steps_made};
ghost use Rattle.rz_replay.specs.RunText.{last_line as line_of_end};
ghost use Rattle.rz_core.specs.Decoding.{decode_profile};
ghost use Rattle.rz_core.specs.Reading.{Read};
ghost use Rattle.rz_core.specs.Command.{IsDoneBy};
ghost use Rattle.rz_core.specs.Debloated.{IsDebloated, IsReport, sources, traced};
ghost use Rattle.rz_core.specs.Ran.{ran};
ghost use Rattle.rz_core.specs.Replayed.{replayed};
ghost use Rattle.rz_core.specs.Texts.{compared_text, counted_text};
ghost use Rattle.rz_core.specs.Demonstrated.{demonstrated, lines_of, said_of, IsDemoText, demo_work};
ghost use Rattle.rz_core.specs.Calls.Making.{MakeRefusal};

use crate::decoding::Decoding;
use crate::making::{Made, make};
use crate::outcome::Outcome;
use crate::status::Status;
use crate::texts;
use rz_classes::Classes;
use rz_elf::elf::Elf;
use rz_elf::fault::ElfError;
use rz_elf::read::read_elf;
use rz_gen::{GEN_STEPS_LIMIT, gen_file};
use rz_machine::machine::Machine;
use rz_machine::start::start;
use rz_num::{Bytes, OutOfMemory};
use rz_paths::Level;
use rz_replay::compare::compare;
use rz_replay::run_text::last_line;
use rz_sys::input::Input;
use std::alloc::Global;

/// `demo N OUT`, of so many functions.
pub fn demo(alloc: Global, count: u32) -> Result<Outcome, Status>
    requires { (1 ≤ count) × (count ≤ 4000) }
    ensures done { IfOk result (λ o. (r : Read) → IsDoneBy (demo_work count) 1 r o) }
    ensures refused { IfErr result (MakeRefusal level.Exact LIMIT (demonstrated count)) }
{
    let made = demonstrate(alloc, count)?;
    match Outcome::wrote(alloc, made) {
        Ok(outcome) => Ok(outcome),
        Err(OutOfMemory) => Err(Status::OutOfMemory),
    }
}

// Debloats the program of so many functions for its run on the empty input, and says what came of it.
fn demonstrate(alloc: Global, count: u32) -> Result<Made, Status>
    requires { (1 ≤ count) × (count ≤ 4000) }
    ensures made { IfOk result (λ m. IsDebloated level.Exact LIMIT (demonstrated count) m.bytes) }
    ensures text { IfOk result (λ m. IsDemoText count m.bytes m.report) }
    ensures err { IfErr result (MakeRefusal level.Exact LIMIT (demonstrated count)) }
{
    let Ok(elf) = program(alloc, count) else {
        return Err(Status::OutOfMemory);
    };
    let made = make_exact(alloc, &elf)?;
    match with_text(alloc, count, &elf, made) {
        Ok(described) => Ok(described),
        Err(OutOfMemory) => Err(Status::OutOfMemory),
    }
}

// The program of so many functions.
fn program(alloc: Global, count: u32) -> Result<Elf, OutOfMemory>
    requires { (1 ≤ count) × (count ≤ 4000) }
    ensures { IfOk result (λ elf. elf ≡ elf_of (generated count)) }
{
    let file = gen_file(alloc, count)?;
    read_accepted_bytes(alloc, file)
}

// Debloats a file for its run on the empty input, with no listed functions.
fn make_exact(alloc: Global, elf: &Elf) -> Result<Made, Status>
    ensures made { IfOk result (λ m.
        IsDebloated level.Exact LIMIT (sources elf.now.bytes [] (empty_input ∷ [])) m.bytes) }
    ensures report { IfOk result (λ m.
        IsReport level.Exact LIMIT (sources elf.now.bytes [] (empty_input ∷ [])) m.report) }
    ensures err { IfErr result
        (MakeRefusal level.Exact LIMIT (sources elf.now.bytes [] (empty_input ∷ []))) }
{
    let inputs = [Input::empty(alloc)];
    make(
        alloc,
        elf,
        &Classes::none(alloc),
        &inputs,
        Level::Exact,
        GEN_STEPS_LIMIT,
    )
}

// What was read of bytes that are an accepted file.
fn read_accepted_bytes(alloc: Global, bytes: Bytes) -> Result<Elf, OutOfMemory>
    requires { fault_of bytes ≡ None }
    ensures { IfOk result (λ elf. elf ≡ elf_of bytes) }
{
    match read_elf(alloc, bytes) {
        Ok(elf) => Ok(elf),
        Err(ElfError::OutOfMemory) => Err(OutOfMemory),
        Err(ElfError::Fault(_)) => unreachable!(),
    }
}

// A new file of a generated program with all that is said of it, in place of its report alone.
fn with_text(alloc: Global, count: u32, old: &Elf, made: Made) -> Result<Made, OutOfMemory>
    requires old { IsRead old.now }
    requires accepted { fault_of made.bytes ≡ None }
    ensures bytes { IfOk result (λ m. m.bytes ≡ made.bytes) }
    ensures text { IfOk result (λ m. m.report ≡ said_of count old.now.bytes made.report made.bytes) }
{
    let Made { bytes, report } = made;
    let new = read_accepted_bytes(alloc, bytes)?;
    let text = text_of(alloc, count, old, &new, &report)?;
    Ok(Made {
        bytes: new.bytes,
        report: text,
    })
}

// All that is said of a new file of a generated program.
fn text_of(
    alloc: Global,
    count: u32,
    old: &Elf,
    new: &Elf,
    report: &Bytes,
) -> Result<Bytes, OutOfMemory>
    requires old { IsRead old.now }
    requires new { IsRead new.now }
    ensures { IfOk result (λ text. text ≡ said_of count old.now.bytes report.now new.now.bytes) }
{
    let mut text = run_lines(alloc, count, old)?;
    text.push_all(report.as_slice())?;
    let compared = compared_line(alloc, old, new)?;
    text.push_all(compared.as_bytes())?;
    Ok(text)
}

// Whether a new file does the same on the empty input.
fn compared_line(alloc: Global, old: &Elf, new: &Elf) -> Result<String, OutOfMemory>
    requires old { IsRead old.now }
    requires new { IsRead new.now }
    ensures { IfOk result (λ line. string_bytes line
        ≡ compared_text (replayed LIMIT old.now.bytes new.now.bytes empty_input)) }
{
    let input = Input::empty(alloc);
    let verdict = compare::<Decoding>(alloc, old, new, GEN_STEPS_LIMIT, &input)?;
    let line = texts::compared(alloc, verdict)?;
    Ok(line)
}

// How many functions a program has, how many steps it makes on the empty input, and how that run ends.
fn run_lines(alloc: Global, count: u32, elf: &Elf) -> Result<Bytes, OutOfMemory>
    requires { IsRead elf.now }
    ensures { IfOk result (λ text. text ≡ lines_of count elf.now.bytes) }
{
    let ran = run_on_nothing(alloc, elf)?;
    lines_of_run(alloc, count, elf, &ran)
}

// How many functions a program has, how many steps a run of it made, and how it ended.
fn lines_of_run(alloc: Global, count: u32, elf: &Elf, ran: &Ran) -> Result<Bytes, OutOfMemory>
    ensures { IfOk result (λ text. text
        ≡ counted_text count ran.now.steps ++ line_of_end elf.now ran.now.machine) }
{
    let counted = texts::counted(alloc, count, ran.steps)?;
    let mut text = Bytes::from_slice(alloc, counted.as_bytes())?;
    let last = last_line(alloc, elf, &ran.machine)?;
    text.push_all(last.as_bytes())?;
    Ok(text)
}

/// How many steps a run made, and the machine behind them.
#[derive(Drop)]
struct Ran {
    steps: u64,
    machine: Machine,
}

// Runs a program on the empty input.
fn run_on_nothing(alloc: Global, elf: &Elf) -> Result<Ran, OutOfMemory>
    requires { IsRead elf.now }
    ensures steps { IfOk result (λ r. r.steps
        ≡ steps_made decode_profile LIMIT (traced elf.now.bytes empty_input)) }
    ensures machine { IfOk result (λ r. r.machine ≡ ran LIMIT elf.now.bytes empty_input) }
{
    let input = Input::empty(alloc);
    let mut machine = start(alloc, elf, &input)?;
    let steps = machine.run_counting::<Decoding>(alloc, GEN_STEPS_LIMIT)?;
    Ok(Ran { steps, machine })
}

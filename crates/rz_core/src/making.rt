//! From a file to its new file: the trace, what the level keeps, the new parts, the written file and the report.

ghost use Rattle.std.specs.Prelude.{◌≡◌, ◌≤◌, None, length, IfOk, IfErr, OnOk};
ghost use Rattle.std.specs.List.{All};
ghost use Rattle.rz_elf.specs.Elf.{image_of};
ghost use Rattle.rz_machine.specs.Keeps.{Keeps};
ghost use Rattle.rz_paths.specs.Levels.{IsWithin, Keeps as KeepsAt};
ghost use Rattle.rz_machine.specs.LeftCode.{StaysInCode};
ghost use Rattle.rz_machine.specs.Nodes.{code_in, StandsIn};
ghost use Rattle.rz_rewrite.specs.Rewritten.{CanRewrite, HasCosts, IsPaced};
ghost use Rattle.rz_machine.specs.Traced.{kept_in, with_run};
ghost use Rattle.rz_sys.specs.Input.{IsValid};
ghost use Rattle.rz_machine.specs.WrittenFile.{Inert};
ghost use Rattle.rz_core.specs.Decoding.{decode_profile, profile_program};
ghost use Rattle.rz_core.specs.Debloated.{AllStay, IsDebloated, IsReport, recorded_of, sources, traced};
ghost use Rattle.rz_report.specs.Report.{debloat_report_of};
ghost use Rattle.rz_rewrite.specs.Refusals.{IsRefusal, no_room_for, rip_reach_of};
ghost use Rattle.rz_trace.specs.Printed.{printed};
ghost use Rattle.rz_core.specs.Recorded.{trace_report};
ghost use Rattle.rz_core.specs.Named.{IsListing};
ghost use Rattle.rz_core.specs.Calls.Making.{status_of, IsListed, MakeRefusal, RunRefusal, RunsRefusal, TraceRefusal as TraceRefusalOf};

use crate::decoding::Decoding;
use crate::status::Status;
use crate::texts;
use rz_aset::Record;
use rz_classes::Classes;
use rz_elf::elf::Elf;
use rz_num::{Bytes, OutOfMemory, are_bytes};
use rz_paths::{Level, expand};
use rz_report::debloat::debloat_report;
use rz_rewrite::refusal::Refusal;
use rz_rewrite::rewrite::{New, rewrite};
use rz_syms::{Symbols, listing};
use rz_sys::input::Input;
use rz_trace::{TraceRefusal, print_trace, trace};
use std::alloc::Global;

/// A new file, and the report of it.
#[derive(Drop)]
pub struct Made {
    pub bytes: Bytes,
    pub report: Bytes,
}

/// Debloats a file with these listed functions for what a level keeps of its runs of `limit` steps on these inputs, or
/// says why there is no new file: a run left the code, or an operand is out of reach, or there is no room, or no memory.
pub fn make(
    alloc: Global,
    elf: &Elf,
    classes: &Classes,
    inputs: &[Input],
    level: Level,
    limit: u64,
) -> Result<Made, Status>
    requires valid { All IsValid inputs.now }
    requires runs { 1 ≤ length inputs.now }
    requires some { 1 ≤ limit }
    ensures made { IfOk result (λ m.
        IsDebloated level limit (sources elf.now.bytes classes.now inputs.now) m.bytes) }
    ensures report { IfOk result (λ m.
        IsReport level limit (sources elf.now.bytes classes.now inputs.now) m.report) }
    ensures err { IfErr result
        (MakeRefusal level limit (sources elf.now.bytes classes.now inputs.now)) }
{
    let recorded = record_runs(alloc, elf, inputs, limit)?;
    let Ok(kept) = keep(alloc, elf, classes, &recorded, level) else {
        return Err(Status::OutOfMemory);
    };
    match write_new(alloc, elf, &kept) {
        Ok(made) => Ok(made),
        Err(why) => Err(refused(why)),
    }
}

// What a level keeps of what runs of a file recorded, with its listed functions.
fn keep(
    alloc: Global,
    elf: &Elf,
    classes: &Classes,
    recorded: &Record,
    level: Level,
) -> Result<Record, OutOfMemory>
    requires recorded { CanRewrite decode_profile (image_of elf.now.bytes) (kept_in recorded.now) }
    ensures keeps { IfOk result
        (KeepsAt level (profile_program elf.now.bytes) classes.now recorded.now) }
    ensures within { IfOk result (IsWithin recorded.now) }
    ensures kept { IfOk result (λ kept.
        CanRewrite decode_profile (image_of elf.now.bytes) (kept_in kept)) }
{
    expand::<Decoding>(alloc, elf, recorded, classes, level)
}

/// What a level keeps of each of these functions of a file, with these listed ones, after its runs of `limit` steps on
/// these inputs, or that a run left the code, or there was no memory.
pub fn list_kept(
    alloc: Global,
    elf: &Elf,
    classes: &Classes,
    inputs: &[Input],
    level: Level,
    limit: u64,
    symbols: &Symbols,
) -> Result<Bytes, Status>
    requires valid { All IsValid inputs.now }
    requires runs { 1 ≤ length inputs.now }
    requires some { 1 ≤ limit }
    ensures listing { IfOk result
        (IsListing level limit (sources elf.now.bytes classes.now inputs.now) symbols.now) }
    ensures stay { OnOk result (AllStay limit elf.now.bytes inputs.now) }
    ensures err { IfErr result (TraceRefusalOf limit elf.now.bytes inputs.now) }
{
    let recorded = record_runs(alloc, elf, inputs, limit)?;
    match list_recorded(alloc, elf, classes, &recorded, level, symbols) {
        Ok(text) => Ok(text),
        Err(OutOfMemory) => Err(Status::OutOfMemory),
    }
}

// What a level keeps of each of these functions, of what runs of a file recorded.
fn list_recorded(
    alloc: Global,
    elf: &Elf,
    classes: &Classes,
    recorded: &Record,
    level: Level,
    symbols: &Symbols,
) -> Result<Bytes, OutOfMemory>
    requires recorded { CanRewrite decode_profile (image_of elf.now.bytes) (kept_in recorded.now) }
    ensures { IfOk result (IsListed level elf.now.bytes classes.now recorded.now symbols.now) }
{
    let kept = keep(alloc, elf, classes, recorded, level)?;
    listing(alloc, symbols, &kept)
}

// The answer to a file that can't be rewritten.
fn refused(why: Refusal) -> Status
    ensures { result ≡ status_of why }
{
    match why {
        Refusal::RipReach(address) => Status::RipReach { address },
        Refusal::NoRoom(room) => Status::NoRoom(room),
        Refusal::OutOfMemory => Status::OutOfMemory,
    }
}

/// The trace file of the runs of `limit` steps of a file on these inputs, and how many nodes and edges it has, or that
/// a run left the code, or there was no memory.
pub fn make_trace(alloc: Global, elf: &Elf, inputs: &[Input], limit: u64) -> Result<Made, Status>
    requires valid { All IsValid inputs.now }
    requires runs { 1 ≤ length inputs.now }
    requires some { 1 ≤ limit }
    ensures made { IfOk result (λ m. m.bytes ≡ printed (recorded_of limit elf.now.bytes inputs.now)) }
    ensures report { IfOk result (λ m. m.report
        ≡ trace_report (recorded_of limit elf.now.bytes inputs.now)) }
    ensures stay { OnOk result (AllStay limit elf.now.bytes inputs.now) }
    ensures err { IfErr result (TraceRefusalOf limit elf.now.bytes inputs.now) }
{
    let kept = record_runs(alloc, elf, inputs, limit)?;
    match write_trace(alloc, &kept) {
        Ok(traced) => Ok(traced),
        Err(OutOfMemory) => Err(Status::OutOfMemory),
    }
}

// The trace file of a record, and how many nodes and edges it has.
fn write_trace(alloc: Global, kept: &Record) -> Result<Made, OutOfMemory>
    ensures bytes { IfOk result (λ m. m.bytes ≡ printed (kept_in kept.now)) }
    ensures report { IfOk result (λ m. m.report ≡ trace_report (kept_in kept.now)) }
{
    let file = print_trace(alloc, kept)?;
    let nodes = kept.nodes.len() as u64;
    let edges = kept.edges.len() as u64;
    let text = texts::traced(alloc, nodes, edges)?;
    let report = Bytes::from_slice(alloc, text.as_bytes())?;
    Ok(Made {
        bytes: file,
        report,
    })
}

// What the runs of a file on these inputs record, each in its first `limit` steps.
fn record_runs(alloc: Global, elf: &Elf, inputs: &[Input], limit: u64) -> Result<Record, Status>
    requires valid { All IsValid inputs.now }
    requires runs { 1 ≤ length inputs.now }
    requires some { 1 ≤ limit }
    ensures kept { IfOk result (λ kept. kept_in kept ≡ recorded_of limit elf.now.bytes inputs.now) }
    ensures plausible { IfOk result (λ kept.
        CanRewrite decode_profile (image_of elf.now.bytes) (kept_in kept)) }
    ensures stay { OnOk result (AllStay limit elf.now.bytes inputs.now) }
    ensures err { IfErr result (RunsRefusal limit elf.now.bytes inputs.now) }
{
    let mut kept = Record::new(alloc);
    for (k, input) in inputs.iter().enumerate() {
        record_run(alloc, elf, input, k as u64 + 1, limit, &mut kept)?;
    }
    Ok(kept)
}

// Adds to the record what the run of a file on the input of this number records in its first `limit` steps.
fn record_run(
    alloc: Global,
    elf: &Elf,
    input: &Input,
    number: u64,
    limit: u64,
    kept: &mut Record,
) -> Result<(), Status>
    requires input { IsValid input.now }
    requires some { 1 ≤ limit }
    ensures added { OnOk result (kept_in kept.new
        ≡ with_run decode_profile limit (traced elf.now.bytes input.now) (kept_in kept.old)) }
    ensures plausible { OnOk result
        (StandsIn decode_profile (code_in (image_of elf.now.bytes).loads) (kept_in kept.old)
        → CanRewrite decode_profile (image_of elf.now.bytes) (kept_in kept.new)) }
    ensures stays { OnOk result (StaysInCode decode_profile limit (traced elf.now.bytes input.now)) }
    ensures err { IfErr result (RunRefusal number limit elf.now.bytes input.now) }
{
    are_bytes(elf.bytes.as_slice());
    match trace::<Decoding>(alloc, elf, input, limit, kept) {
        Ok(()) => Ok(()),
        Err(TraceRefusal::LeftCode(address)) => Err(Status::LeftCode {
            input: number,
            address,
        }),
        Err(TraceRefusal::OutOfMemory) => Err(Status::OutOfMemory),
    }
}

// The new file of a file for what is kept, and the report of it.
fn write_new(alloc: Global, elf: &Elf, kept: &Record) -> Result<Made, Refusal>
    requires plausible { CanRewrite decode_profile (image_of elf.now.bytes) (kept_in kept.now) }
    ensures keeps { IfOk result (λ m. Keeps decode_profile elf.now.bytes m.bytes (kept_in kept.now)) }
    ensures paced { IfOk result (λ m. IsPaced decode_profile elf.now.bytes m.bytes (kept_in kept.now)) }
    ensures costs { IfOk result (λ m. HasCosts decode_profile elf.now.bytes m.bytes (kept_in kept.now)) }
    ensures inert { IfOk result (λ m. Inert decode_profile elf.now.bytes m.bytes (kept_in kept.now)) }
    ensures report { IfOk result (λ m. m.report
        ≡ debloat_report_of decode_profile (image_of elf.now.bytes) (kept_in kept.now)) }
    ensures reach { OnOk result (rip_reach_of decode_profile elf.now.bytes (kept_in kept.now) ≡ None) }
    ensures room { OnOk result (no_room_for decode_profile elf.now.bytes (kept_in kept.now) ≡ None) }
    ensures refused { IfErr result (IsRefusal decode_profile elf.now.bytes (kept_in kept.now)) }
{
    let New { bytes, .. } = rewrite::<Decoding>(alloc, elf, kept)?;
    let report = debloat_report::<Decoding>(alloc, elf, kept)?;
    Ok(Made { bytes, report })
}

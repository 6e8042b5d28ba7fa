// Reading trace files.

ghost use Rattle.std.specs.Prelude.{◌≡◌, ◌≢◌, ◌<◌, ◌+◌, ◌^◌, Some, None, OnOk, IfOk, IfErr};
ghost use Rattle.rz_text.specs.Lines.{words};
ghost use Rattle.rz_trace.specs.declared.error.TraceFault.TheVariants as error;
ghost use Rattle.rz_trace.specs.Grammar.{entry_of as entry_said};
ghost use Rattle.rz_trace.specs.Order.{edge_follows, end_follows, fits, is_end, is_first, node_follows, profile_follows};
ghost use Rattle.rz_trace.specs.Fault.{fault_of, line_fault};
ghost use Rattle.rz_trace.specs.Value.{file_of, with_entry, with_some};

use crate::entry::Entry;
use crate::error::TraceFault;
use crate::file::TraceFile;
use crate::line::entry_of;
use rz_aset::Record;
use rz_num::{Bytes, OutOfMemory};
use rz_text::{Lines, TEXT_MAX};
use std::alloc::Global;

/// Reads the text of a trace file: the line `razor-trace 2` and the line `profile 1` or `profile 2`, lines `n ADDR` in ascending order,
/// lines `e ADDR ADDR` in ascending order of the pairs, whose ends are among the nodes, and the line `end`. A file of version 1 has the
/// line `razor-trace 1`, no line of a profile, and is one of profile 1. The error is the first line that breaks this, or want of memory.
pub fn read_trace(alloc: Global, bytes: &Bytes) -> Result<TraceFile, TraceFault>
    ensures sound { IfOk result (λ _. fault_of bytes.now ≡ None) }
    ensures value { IfOk result (λ file. file ≡ file_of bytes.now) }
    ensures fault { IfErr result (λ e. e ≢ error.OutOfMemory → fault_of bytes.now ≡ Some e) }
{
    let text = bytes.as_slice();
    if text.len() > TEXT_MAX {
        return Err(TraceFault::BadLine(0));
    }
    let mut draft = Draft {
        file: TraceFile {
            profile: 1,
            rec: Record::new(alloc),
        },
        last: None,
        passed: 0,
    };
    let mut lines = Lines::new(text);
    while let Some((n, line)) = lines.next_line() {
        read_line(&mut draft, n, line)?;
    }
    if is_end(draft.last) {
        Ok(draft.file)
    } else {
        Err(TraceFault::BadLine(draft.passed + 1))
    }
}

// What is read so far, what the last line said, and how many lines were read.
#[derive(Drop)]
struct Draft {
    file: TraceFile,
    last: Option<Entry>,
    passed: u64,
}

// Reads line `n`.
fn read_line(draft: &mut Draft, n: u64, line: &[u8]) -> Result<(), TraceFault>
    requires { draft.old.passed + 1 < 2 ^ 64 }
    ensures sound { OnOk result (line_fault draft.old.file.rec draft.old.last n line.now ≡ None) }
    ensures added { OnOk result (draft.new.file ≡ with_some draft.old.file (entry_said (words line.now))) }
    ensures last { OnOk result (draft.new.last ≡ entry_said (words line.now)) }
    ensures passed { OnOk result (draft.new.passed ≡ draft.old.passed + 1) }
    ensures fault { IfErr result
        (λ e. e ≢ error.OutOfMemory → line_fault draft.old.file.rec draft.old.last n line.now ≡ Some e) }
{
    let Some(entry) = entry_of(line) else {
        return Err(TraceFault::BadLine(n));
    };
    if !fits(&draft.file.rec, draft.last, entry) {
        return Err(TraceFault::BadLine(n));
    }
    add(&mut draft.file, entry)?;
    draft.last = Some(entry);
    draft.passed += 1;
    Ok(())
}

// Adds what a line says.
fn add(file: &mut TraceFile, entry: Entry) -> Result<(), OutOfMemory>
    ensures { OnOk result (file.new ≡ with_entry file.old entry) }
{
    match entry {
        Entry::Begin(_) => (),
        Entry::Profile(profile) => file.profile = profile,
        Entry::Node(at) => {
            file.rec.nodes.insert(at)?;
        }
        Entry::Edge(from, to) => {
            file.rec.edges.insert((from, to))?;
        }
        Entry::End => (),
    }
    Ok(())
}

// Whether a line may stand behind the last one, where these are the nodes and edges before it.
fn fits(kept: &Record, last: Option<Entry>, entry: Entry) -> bool
    ensures { result ≡ fits kept.now last entry }
{
    match entry {
        Entry::Begin(_) => is_first(last),
        Entry::Profile(_) => profile_follows(last),
        Entry::Node(at) => node_follows(last, at),
        Entry::Edge(from, to) => {
            edge_follows(last, from, to) && kept.nodes.contains(from) && kept.nodes.contains(to)
        }
        Entry::End => end_follows(last),
    }
}

fn is_first(last: Option<Entry>) -> bool
    ensures { result ≡ is_first last }
{
    last.is_none()
}

fn profile_follows(last: Option<Entry>) -> bool
    ensures { result ≡ profile_follows last }
{
    match last {
        Some(Entry::Begin(version)) => version == 2,
        _ => false,
    }
}

fn node_follows(last: Option<Entry>, at: u64) -> bool
    ensures { result ≡ node_follows last at }
{
    match last {
        Some(Entry::Begin(version)) => version == 1,
        Some(Entry::Profile(_)) => true,
        Some(Entry::Node(before)) => before < at,
        _ => false,
    }
}

fn edge_follows(last: Option<Entry>, from: u64, to: u64) -> bool
    ensures { result ≡ edge_follows last from to }
{
    match last {
        Some(Entry::Begin(version)) => version == 1,
        Some(Entry::Profile(_) | Entry::Node(_)) => true,
        Some(Entry::Edge(first, second)) => first < from || first == from && second < to,
        _ => false,
    }
}

fn end_follows(last: Option<Entry>) -> bool
    ensures { result ≡ end_follows last }
{
    match last {
        None | Some(Entry::End) => false,
        Some(Entry::Begin(version)) => version == 1,
        Some(_) => true,
    }
}

fn is_end(last: Option<Entry>) -> bool
    ensures { result ≡ is_end last }
{
    matches!(last, Some(Entry::End))
}

// What runs used: the addresses of the instructions that they began, and the pairs of neighbours.

ghost use Rattle.std.specs.Prelude.{◌≡◌, OnOk, OnErr, IfErr};
ghost use Rattle.rz_isa.specs.Decoded.{decoded};
ghost use Rattle.rz_machine.specs.LeftCode.{left_at, StaysInCode};
ghost use Rattle.rz_machine.specs.Traced.{with_run, kept_in};
ghost use Rattle.rz_trace.specs.Traced.{IsRefused};
ghost use Rattle.rz_trace.specs.Calls.Begun.{with_begun, IsSameOrWith};
ghost use Rattle.rz_trace.specs.Calls.Memo.{Knows};
ghost use Rattle.rz_machine.specs.Recorded.{IsUncut, StaysPlausible};
ghost use Rattle.rz_sys.specs.Input.{IsValid};
ghost use Rattle.rz_machine.specs.Start.{first_state};
ghost use Rattle.rz_elf.specs.Loaded.{loaded};

use crate::memo::Memo;
use rz_aset::Record;
use rz_elf::elf::Elf;
use rz_isa::InsnTable;
use rz_machine::machine::{End, Machine};
use rz_machine::runs::Observer;
use rz_machine::start::start;
use rz_num::OutOfMemory;
use rz_sys::input::Input;
use std::alloc::Global;
use std::mem;
use thiserror::Error;

/// Why a run wasn't traced to its limit. `LeftCode` has the address that the run came to, where no instruction of the
/// file is spelled.
#[derive(Debug, Drop, Error)]
pub enum TraceRefusal {
    #[error("left code {0}")]
    LeftCode(u64),
    #[error("out of memory")]
    OutOfMemory,
}

impl From<OutOfMemory> for TraceRefusal {
    ghost use Rattle.std.specs.Prelude.{◌≡◌};
    ghost use Rattle.rz_trace.specs.declared.tracer.TraceRefusal.TheVariants.{OutOfMemory};

    ghost from_gives = { λ _ e. e ≡ OutOfMemory };

    fn from(_: OutOfMemory) -> TraceRefusal {
        TraceRefusal::OutOfMemory
    }
}

/// Runs a file on an input for `limit` steps, or until the run ends, and adds to the record the address of each
/// instruction that is begun and each pair of neighbours. `LeftCode` comes exactly where one of these steps finds no
/// instruction; what came before it is then in the record. For want of memory the record has what it had and a part of the run.
pub fn trace<T: InsnTable>(
    alloc: Global,
    elf: &Elf,
    input: &Input,
    limit: u64,
    rec: &mut Record,
) -> Result<(), TraceRefusal>
    requires input { IsValid input.now }
    ensures added { OnOk result (kept_in rec.new
        ≡ with_run (decoded T.rows) limit (first_state elf.now input.now) (kept_in rec.old)) }
    ensures stays { OnOk result (StaysInCode (decoded T.rows) limit (first_state elf.now input.now)) }
    ensures refused { IfErr result
        (IsRefused (decoded T.rows) limit (first_state elf.now input.now) (kept_in rec.old) (kept_in rec.new)) }
    // What is recorded from what stands in the code is plausible, and the run has no cut.
    ensures plausible { OnOk result
        (StaysPlausible (decoded T.rows) limit (loaded elf.now) (kept_in rec.old) (kept_in rec.new)) }
    ensures uncut { OnOk result
        (IsUncut (decoded T.rows) rec.new.edges (first_state elf.now input.now) limit) }
{
    let mut machine = start(alloc, elf, input)?;
    // From here on it is known what a machine keeps.
    let _ = &machine.end;
    follow::<T>(alloc, &mut machine, limit, rec)
}

// The address where a run found no instruction, if it ended so.
#[inline(always)]
fn address_left(end: Option<End>) -> Option<u64>
    ensures { result ≡ left_at end }
{
    match end {
        Some(End::Fetch(at)) | Some(End::Unknown(at)) => Some(at),
        _ => None,
    }
}

// Adds an instruction that was begun, and the edge from the one begun before it.
#[cold]
#[inline(never)]
fn add(rec: &mut Record, last: Option<u64>, at: u64) -> Result<(), OutOfMemory>
    ensures ok { OnOk result (kept_in rec.new ≡ with_begun (kept_in rec.old) last at) }
    ensures edges { OnErr result (rec.new.edges ≡ rec.old.edges) }
    ensures nodes { OnErr result (IsSameOrWith at rec.old.nodes rec.new.nodes) }
{
    rec.nodes.insert(at)?;
    if let Some(from) = last {
        rec.edges.insert((from, at))?;
    }
    Ok(())
}

// The same, where the memo knows edges that are there already.
#[inline(always)]
fn add_with(
    alloc: Global,
    memo: &mut Memo,
    rec: &mut Record,
    last: Option<u64>,
    at: u64,
) -> Result<(), OutOfMemory>
    ensures ok { Knows (kept_in rec.old) memo.old
        → OnOk result (kept_in rec.new ≡ with_begun (kept_in rec.old) last at) }
    ensures knows { Knows (kept_in rec.old) memo.old → OnOk result (Knows (kept_in rec.new) memo.new) }
    ensures edges { OnErr result (rec.new.edges ≡ rec.old.edges) }
    ensures nodes { OnErr result (IsSameOrWith at rec.old.nodes rec.new.nodes) }
{
    let Some(from) = last else {
        add(rec, None, at)?;
        return Ok(());
    };
    if memo.has(from, at) {
        return Ok(());
    }
    add(rec, Some(from), at)?;
    memo.note(alloc, from, at);
    Ok(())
}

// The observer that records what a run begins: the record, a memo of its edges, and the instruction begun last.
#[derive(Drop)]
struct Tracer {
    rec: Record,
    memo: Memo,
    last: Option<u64>,
}

impl Observer for Tracer {
    ghost use Rattle.rz_machine.specs.Until.{has_ended};
    ghost use Rattle.rz_machine.specs.Traced.{kept_in};
    ghost use Rattle.rz_trace.specs.Traced.{HasPart};
    ghost use Rattle.rz_trace.specs.Calls.Followed.{Followed};

    ghost stops_at = { λ _ s. has_ended s };

    ghost Follows = { λ first dec s steps o.
        Followed dec steps s (kept_in first.rec) (kept_in o.rec) o.memo o.last };

    ghost Misses = { λ first dec s steps o. HasPart dec steps s (kept_in first.rec) (kept_in o.rec) };

    #[inline(always)]
    fn stops(&self, machine: &Machine) -> bool {
        machine.end.is_some()
    }

    #[inline(always)]
    fn sees(&mut self, alloc: Global, at: u64, machine: &Machine) -> Result<(), OutOfMemory> {
        if address_left(machine.end).is_none() {
            add_with(alloc, &mut self.memo, &mut self.rec, self.last, at)?;
            self.last = Some(at);
        }
        Ok(())
    }
}

// Adds the nodes and the edges of the first `limit` steps of a machine.
fn follow<T: InsnTable>(
    alloc: Global,
    machine: &mut Machine,
    limit: u64,
    rec: &mut Record,
) -> Result<(), TraceRefusal>
    ensures ok { OnOk result
        (kept_in rec.new ≡ with_run (decoded T.rows) limit machine.old (kept_in rec.old)) }
    ensures stays { OnOk result (StaysInCode (decoded T.rows) limit machine.old) }
    ensures err { IfErr result
        (IsRefused (decoded T.rows) limit machine.old (kept_in rec.old) (kept_in rec.new)) }
{
    let mut tracer = Tracer {
        rec: mem::replace(rec, Record::new(alloc)),
        memo: Memo::new(alloc),
        last: None,
    };
    let ran = machine.observe::<T, Tracer>(alloc, limit, &mut tracer);
    *rec = tracer.rec;
    ran?;
    match address_left(machine.end) {
        Some(left) => Err(TraceRefusal::LeftCode(left)),
        None => Ok(()),
    }
}

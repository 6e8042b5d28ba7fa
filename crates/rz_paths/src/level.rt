// The levels.

ghost use Rattle.std.specs.Prelude.{◌≡◌, ◌↔◌, ◌⊎◌, true, ℕ, IfOk};
ghost use Rattle.rz_isa.specs.Decoded.{decoded};
ghost use Rattle.rz_aset.specs.declared.kept.Record.{Record as Kept};
ghost use Rattle.rz_aset.specs.Sets.{has};
ghost use Rattle.rz_elf.specs.Elf.{image_of};
ghost use Rattle.rz_machine.specs.Nodes.{IsPlausible, code_in};
ghost use Rattle.rz_machine.specs.Traced.{kept_in};
ghost use Rattle.rz_paths.specs.Sets.{In, joins};
ghost use Rattle.rz_paths.specs.Program.{program_of};
ghost use Rattle.rz_paths.specs.Levels.{IsNodeAt, IsEdgeAt, IsWithin, Keeps, KeepsOver, before, passes};
ghost use Rattle.rz_paths.specs.Walks.{OnWalk};
ghost use Rattle.rz_paths.specs.Calls.Sound.{IsSound};

use crate::bodies::function_nodes;
use crate::listing::{Listing, listed, unlisted};
use crate::node::Program;
use crate::passing::{live_starts, recorded_starts};
use crate::returns::kept_edges;
use crate::sets::{add_all, add_edges, union};
use crate::walks::walk_nodes;
use rz_aset::{AddrSet, EdgeSet, Record};
use rz_classes::Classes;
use rz_elf::elf::Elf;
use rz_isa::InsnTable;
use rz_num::OutOfMemory;
use std::alloc::Global;

/// How much is kept beyond what was recorded. Each level keeps what the one before it keeps.
#[derive(Clone, Copy, PartialEq, Eq, Debug)]
pub enum Level {
    /// What was recorded.
    Exact,
    /// And the static edges among the recorded nodes, with the edges from returns.
    Zcode,
    /// And the nodes on walks between recorded branches and a return or recorded nodes.
    Zcall,
    /// And those on walks over calls of listed functions whose starts were recorded.
    Zlib,
    /// And those on walks over calls of listed functions of a class of which a start was recorded, with the bodies of the
    /// functions that such calls bring in.
    Zfunc,
}

/// What a level keeps of a record of a file, with its listed functions. Time and memory are linear in the addresses that
/// control may come to and in the edges that are kept, and in what each called function reaches. It refuses for want of
/// memory alone.
pub fn expand<T: InsnTable>(
    alloc: Global,
    elf: &Elf,
    rec: &Record,
    classes: &Classes,
    level: Level,
) -> Result<Record, OutOfMemory>
    // Runs could have left the record.
    requires { IsPlausible (decoded T.rows) (code_in (image_of elf.now.bytes).loads)
        (image_of elf.now.bytes).entry (kept_in rec.now) }
    ensures exact { IfOk result (Keeps level (program_of T.rows elf.now.bytes) classes.now rec.now) }
    ensures recorded { IfOk result (IsWithin rec.now) }
    ensures grows { IfOk result (λ kept. (few : Kept) →
        Keeps (before level) (program_of T.rows elf.now.bytes) classes.now rec.now few → IsWithin few kept) }
    ensures plausible { IfOk result (λ kept. IsPlausible (decoded T.rows)
        (code_in (image_of elf.now.bytes).loads) (image_of elf.now.bytes).entry (kept_in kept)) }
{
    let passing = passing_targets(alloc, classes, &rec.nodes, level)?;
    let program = program_for::<T>(alloc, elf, &rec.nodes, level)?;
    expand_in(alloc, &program, &passing, classes, rec, level)
}

// The instructions of a file, those listed that a level looks at.
fn program_for<'a, T: InsnTable>(
    alloc: Global,
    elf: &'a Elf,
    recorded: &AddrSet,
    level: Level,
) -> Result<Listing<'a, T>, OutOfMemory>
    ensures { IfOk result (λ listing. listing ≡ elf.now.bytes) }
{
    match level {
        Level::Exact => Ok(unlisted(alloc, elf)),
        Level::Zcode => listed(alloc, elf, recorded, false),
        Level::Zcall | Level::Zlib | Level::Zfunc => listed(alloc, elf, recorded, true),
    }
}

// The targets whose calls a level steps over.
fn passing_targets(
    alloc: Global,
    classes: &Classes,
    recorded: &AddrSet,
    level: Level,
) -> Result<AddrSet, OutOfMemory>
    ensures { IfOk result (λ set. (t : ℕ) → has set t ≡ passes level classes.now recorded.now t) }
{
    match level {
        Level::Exact | Level::Zcode | Level::Zcall => Ok(AddrSet::new(alloc)),
        Level::Zlib => recorded_starts(alloc, classes, recorded),
        Level::Zfunc => live_starts(alloc, classes, recorded),
    }
}

// What a level keeps of a record of a program.
fn expand_in<P: Program>(
    alloc: Global,
    program: &P,
    passing: &AddrSet,
    classes: &Classes,
    rec: &Record,
    level: Level,
) -> Result<Record, OutOfMemory>
    requires { IsSound (P.code program.now) rec.now.nodes rec.now.edges }
    ensures { IfOk result (KeepsOver level (P.code program.now) (has passing.now) classes.now rec.now) }
{
    let nodes = level_nodes(alloc, program, passing, classes, &rec.nodes, level)?;
    let edges = level_edges(alloc, program, rec, &nodes, level)?;
    Ok(Record { nodes, edges })
}

// The nodes that a level keeps.
fn level_nodes<P: Program>(
    alloc: Global,
    program: &P,
    passing: &AddrSet,
    classes: &Classes,
    recorded: &AddrSet,
    level: Level,
) -> Result<AddrSet, OutOfMemory>
    ensures { IfOk result (λ set. (a : ℕ) →
        In set a ↔ IsNodeAt level (P.code program.now) (has passing.now) classes.now recorded.now a) }
{
    match level {
        Level::Exact | Level::Zcode => copied(alloc, recorded),
        Level::Zcall | Level::Zlib => with_walks(alloc, program, passing, recorded),
        Level::Zfunc => function_nodes(alloc, program, passing, classes, recorded),
    }
}

// The recorded nodes and those of walks.
fn with_walks<P: Program>(
    alloc: Global,
    program: &P,
    passing: &AddrSet,
    recorded: &AddrSet,
) -> Result<AddrSet, OutOfMemory>
    ensures { IfOk result (λ set. (a : ℕ) → In set a
        ↔ (In recorded.now a ⊎ OnWalk (P.code program.now) (has passing.now) recorded.now a)) }
{
    let walks = walk_nodes(alloc, program, passing, recorded)?;
    union(alloc, recorded, &walks)
}

// The edges that a level keeps among its nodes.
fn level_edges<P: Program>(
    alloc: Global,
    program: &P,
    rec: &Record,
    nodes: &AddrSet,
    level: Level,
) -> Result<EdgeSet, OutOfMemory>
    requires sound { IsSound (P.code program.now) rec.now.nodes rec.now.edges }
    requires kept { (a : ℕ) → In rec.now.nodes a → In nodes.now a }
    ensures { IfOk result (λ set. (a b : ℕ) →
        (joins set a b ≡ true) ↔ IsEdgeAt level (P.code program.now) rec.now.edges nodes.now a b) }
{
    match level {
        Level::Exact => copied_edges(alloc, &rec.edges),
        Level::Zcode | Level::Zcall | Level::Zlib | Level::Zfunc => {
            kept_edges(alloc, program, &rec.edges, nodes)
        }
    }
}

fn copied(alloc: Global, set: &AddrSet) -> Result<AddrSet, OutOfMemory>
    ensures { IfOk result (λ copy. (a : ℕ) → has copy a ≡ has set.now a) }
{
    let mut copy = AddrSet::new(alloc);
    add_all(&mut copy, set.as_slice())?;
    Ok(copy)
}

fn copied_edges(alloc: Global, set: &EdgeSet) -> Result<EdgeSet, OutOfMemory>
    ensures { IfOk result (λ copy. (a b : ℕ) → joins copy a b ≡ joins set.now a b) }
{
    let mut copy = EdgeSet::new(alloc);
    add_edges(&mut copy, set.as_slice())?;
    Ok(copy)
}

//! The new file of a file, for what is kept of it.

ghost use Rattle.std.specs.Prelude.{◌≡◌, ◌+◌, ◌-◌, ◌*◌, ◌≤◌, ◌++◌, length, replicate, None, IfOk, IfErr, OnOk};
ghost use Rattle.rz_image.specs.Memory.{zeros};
ghost use Rattle.rz_elf.specs.Elf.{image_of};
ghost use Rattle.rz_isa.specs.Decoded.{decoded};
ghost use Rattle.rz_machine.specs.Added.{added};
ghost use Rattle.rz_machine.specs.Keeps.{Keeps};
ghost use Rattle.rz_machine.specs.Kept.{sorted, sorted_edges};
ghost use Rattle.rz_machine.specs.Traced.{kept_in};
ghost use Rattle.rz_machine.specs.WrittenFile.{Inert};
ghost use Rattle.rz_elf.specs.AddedRange.{filled as filled_with};
ghost use Rattle.rz_elf.specs.Format.{all_stubs, stub_size};
ghost use Rattle.rz_rewrite.specs.Refusals.{IsRefusal, no_room_for, rip_reach_of};
ghost use Rattle.rz_rewrite.specs.Rewritten.{CanRewrite, HasCosts, HasPlacement, IsBound, IsNewFile, IsPaced, greatest_bound as greatest_bound_of, stubs_of};
ghost use Rattle.rz_rewrite.specs.Calls.Plan.{IsNew, IsPlanned};

use crate::added::{AddedRange, added_range};
use crate::bounds::greatest_bound;
use crate::code::new_code;
use crate::law::table_facts;
use crate::nodes::{first_out_of_reach, site_count, site_edge_count, site_words};
use crate::refusal::Refusal;
use crate::stubs::emit_stubs;
use crate::tables::emit_tables;
use rz_aset::Record;
use rz_elf::elf::Elf;
use rz_elf::format::INT3;
use rz_elfw::extent::extent_of;
use rz_elfw::parts::Parts;
use rz_elfw::write::write_elf;
use rz_isa::InsnTable;
use rz_num::{Bytes, OutOfMemory, Pairs, are_bytes};
use std::alloc::Global;

/// A new file.
#[derive(Drop)]
pub struct New {
    /// Its bytes.
    pub bytes: Bytes,
    /// The address where the range begins that is added in it.
    pub base: u64,
    /// The address of each kept node, and of its fragment, in ascending order.
    pub places: Pairs,
    /// The address of each kept node, and of its stub, in ascending order.
    pub stubs: Pairs,
    /// The address of each kept site, and of its table, in ascending order.
    pub tables: Pairs,
    /// The place of the routine; 0 where there is no site.
    pub routine: u64,
    /// A number of steps that no step of the original takes more of.
    pub bound: u64,
}

/// The new file of a file for what is kept of it, which could have been left by traces of its runs. It is refused with
/// the least kept address whose operand is out of reach, exactly where there is one, else for the first reason why there
/// is no room, exactly where there is one, or for want of memory.
pub fn rewrite<T: InsnTable>(alloc: Global, elf: &Elf, kept: &Record) -> Result<New, Refusal>
    requires plausible { CanRewrite (decoded T.rows) (image_of elf.now.bytes) (kept_in kept.now) }
    ensures placed { IfOk result (λ new.
        HasPlacement (decoded T.rows) elf.now.bytes new.bytes (kept_in kept.now) new.places new.tables new.routine) }
    ensures paced { IfOk result (λ new. IsPaced (decoded T.rows) elf.now.bytes new.bytes (kept_in kept.now)) }
    ensures costs { IfOk result (λ new. HasCosts (decoded T.rows) elf.now.bytes new.bytes (kept_in kept.now)) }
    ensures stubs { IfOk result (λ new.
        new.stubs ≡ stubs_of (decoded T.rows) elf.now.bytes (kept_in kept.now)) }
    ensures code { IfOk result (λ new. IsNewFile T.rows elf.now.bytes new.bytes (kept_in kept.now)) }
    ensures keeps { IfOk result (λ new. Keeps (decoded T.rows) elf.now.bytes new.bytes (kept_in kept.now)) }
    ensures inert { IfOk result (λ new. Inert (decoded T.rows) elf.now.bytes new.bytes (kept_in kept.now)) }
    ensures base { IfOk result (λ new.
        new.base ≡ (added (decoded T.rows) (image_of elf.now.bytes) (kept_in kept.now)).scratch) }
    ensures bound { IfOk result (λ new.
        new.bound ≡ greatest_bound_of (decoded T.rows) (image_of elf.now.bytes) (kept_in kept.now)) }
    ensures most { IfOk result (λ new.
        IsBound (decoded T.rows) (image_of elf.now.bytes) (kept_in kept.now) new.bound) }
    ensures reach { OnOk result (rip_reach_of (decoded T.rows) elf.now.bytes (kept_in kept.now) ≡ None) }
    ensures room { OnOk result (no_room_for (decoded T.rows) elf.now.bytes (kept_in kept.now) ≡ None) }
    ensures refused { IfErr result (IsRefusal (decoded T.rows) elf.now.bytes (kept_in kept.now)) }
{
    are_bytes(elf.bytes.as_slice());
    let words = kept.nodes.sorted(alloc)?;
    let pairs = kept.edges.sorted(alloc)?;
    let nodes = words.as_slice();
    let edges = pairs.as_slice();
    if let Some(address) = first_out_of_reach::<T>(elf, nodes) {
        return Err(Refusal::RipReach(address));
    }
    let sites = site_count::<T>(elf, nodes);
    let site_edges = site_edge_count::<T>(elf, edges);
    match added_range(&extent_of(elf), nodes.len() as u64, sites, site_edges) {
        Ok(range) => Ok(write_new::<T>(alloc, elf, nodes, edges, kept, &range)?),
        Err(room) => Err(Refusal::NoRoom(room)),
    }
}

// The new file for what is kept, whose parts have room and lie so. It refuses for want of memory alone.
fn write_new<T: InsnTable>(
    alloc: Global,
    elf: &Elf,
    nodes: &[u64],
    edges: &[(u64, u64)],
    kept: &Record,
    range: &AddedRange,
) -> Result<New, OutOfMemory>
    requires nodes { nodes.now ≡ sorted kept.now.nodes }
    requires edges { edges.now ≡ sorted_edges kept.now.edges }
    requires can { IsPlanned (decoded T.rows) elf.now.bytes (kept_in kept.now) range.now }
    ensures { IfOk result (λ new. IsNew T.rows elf.now.bytes (kept_in kept.now) range.now new) }
{
    table_facts::<T>();
    let sites = site_words::<T>(alloc, elf, nodes)?;
    let code = new_code::<T>(alloc, elf, nodes, edges, sites.as_slice(), kept, range)?;
    let tables = emit_tables(
        alloc,
        edges,
        sites.as_slice(),
        code.places.as_slice(),
        code.stubs.as_slice(),
    )?;
    let bound = greatest_bound::<T>(elf, nodes, edges);
    let parts = parts_with(alloc, tables, code.bytes, nodes, range)?;
    let bytes = write_elf(alloc, elf, &parts, code.entry)?;
    are_bytes(bytes.as_slice());
    Ok(New {
        bytes,
        base: range.scratch,
        places: code.places,
        stubs: code.stubs,
        tables: code.tables,
        routine: code.routine,
        bound,
    })
}

// The parts of a new file with these tables, which zeros follow, and this code.
fn parts_with(
    alloc: Global,
    tables: Bytes,
    code: Bytes,
    nodes: &[u64],
    range: &AddedRange,
) -> Result<Parts, OutOfMemory>
    requires tables { length tables ≤ range.now.code - range.now.tables }
    requires order { range.now.tables ≤ range.now.code }
    requires stubs { range.now.stubs + stub_size * length nodes.now ≤ range.now.stop }
    ensures base { IfOk result (λ parts. parts.base ≡ range.now.scratch) }
    ensures tables { IfOk result (λ parts. parts.tables ≡ tables ++ zeros (range.now.code - range.now.tables - length tables)) }
    ensures code { IfOk result (λ parts. parts.code ≡ code) }
    ensures stubs { IfOk result (λ parts.
        parts.stubs ≡ filled_with (range.now.stop - range.now.stubs) (all_stubs range.now.stubs nodes.now)) }
{
    let tables = filled(tables, range.code - range.tables, 0)?;
    let stubs = emit_stubs(alloc, nodes)?;
    let stubs = filled(stubs, range.stop - range.stubs, INT3)?;
    Ok(Parts {
        base: range.scratch,
        tables,
        code,
        stubs,
    })
}

// These bytes, and a byte again and again up to a size.
fn filled(bytes: Bytes, size: u64, byte: u8) -> Result<Bytes, OutOfMemory>
    requires { length bytes ≤ size }
    ensures { IfOk result (λ list. list ≡ bytes ++ replicate (size - length bytes) byte) }
{
    let mut items = bytes.into_vec();
    items.resize(size as usize, byte)?;
    Ok(Bytes::from_vec(items))
}

//! The code of a new file: its fragments, laid out and emitted.

ghost use Rattle.std.specs.Prelude.{◌≡◌, ◌≤◌, length, slice_index, IfOk};
ghost use Rattle.rz_elf.specs.Elf.{image_of};
ghost use Rattle.rz_isa.specs.Decoded.{decoded};
ghost use Rattle.rz_isa.specs.Items.{item_count};
ghost use Rattle.rz_machine.specs.Added.{sites as sites_of};
ghost use Rattle.rz_machine.specs.Kept.{sorted, sorted_edges};
ghost use Rattle.rz_machine.specs.Nodes.{code_in};
ghost use Rattle.rz_machine.specs.Traced.{kept_in};
ghost use Rattle.rz_rewrite.specs.Rewritten.{fragments_of};
ghost use Rattle.rz_rewrite.specs.Calls.Laid.{MayLay, IsLaid};
ghost use Rattle.rz_rewrite.specs.Calls.Plan.{IsPlanned, IsNewCode};
ghost use Rattle.rz_rewrite.specs.Calls.Places.{places_from, routine_in};

use crate::added::AddedRange;
use crate::fragments::fragment_list;
use crate::law::table_facts;
use crate::ranges::place_beside;
use crate::stubs::stub_pairs;
use crate::tables::{routine_items, table_pairs};
use rz_aset::Record;
use rz_elf::elf::Elf;
use rz_emit::emit;
use rz_isa::{Fragment, Fragments, InsnTable, Item};
use rz_layout::laws::{least_is_shortest, sized_stand_near};
use rz_layout::layout::layout;
use rz_num::{Bytes, OutOfMemory, Pairs};
use std::alloc::Global;

/// The code part of a new file, the place of each kept node's fragment and stub, and the address where the file begins.
#[derive(Drop)]
pub struct NewCode {
    pub bytes: Bytes,
    pub places: Pairs,
    pub stubs: Pairs,
    /// The address of each kept site, and of its table, in ascending order.
    pub tables: Pairs,
    /// The place of the routine; 0 where there is no site.
    pub routine: u64,
    pub entry: u64,
}

// The code of fragments, and the places of each and of the routine.
#[derive(Drop)]
struct LaidCode {
    bytes: Bytes,
    places: Pairs,
    routine: u64,
}

/// The code of the new file for what is kept of a file, whose nodes and edges are given in ascending order, too, and
/// whose parts have room and lie so. It refuses for want of memory alone.
pub fn new_code<T: InsnTable>(
    alloc: Global,
    elf: &Elf,
    nodes: &[u64],
    edges: &[(u64, u64)],
    sites: &[u64],
    kept: &Record,
    range: &AddedRange,
) -> Result<NewCode, OutOfMemory>
    requires nodes { nodes.now ≡ sorted kept.now.nodes }
    requires edges { edges.now ≡ sorted_edges kept.now.edges }
    requires sites { sites.now ≡ sites_of (decoded T.rows) (code_in (image_of elf.now.bytes).loads) nodes.now }
    requires can { IsPlanned (decoded T.rows) elf.now.bytes (kept_in kept.now) range.now }
    ensures { IfOk result (λ code. IsNewCode T.rows (image_of elf.now.bytes) (kept_in kept.now) range.now code) }
{
    table_facts::<T>();
    sized_stand_near();
    least_is_shortest();
    let frags = kept_fragments::<T>(alloc, elf, nodes, edges, sites, kept, range)?;
    let laid = laid_code::<T>(alloc, &frags, range)?;
    let entry = place_beside(laid.places.as_slice(), elf.entry);
    Ok(NewCode {
        bytes: laid.bytes,
        places: laid.places,
        stubs: frags.stubs,
        tables: frags.tables,
        routine: laid.routine,
        entry,
    })
}

// The fragments of what is kept of a file, with the stubs of its nodes.
fn kept_fragments<T: InsnTable>(
    alloc: Global,
    elf: &Elf,
    nodes: &[u64],
    edges: &[(u64, u64)],
    sites: &[u64],
    kept: &Record,
    range: &AddedRange,
) -> Result<Fragments, OutOfMemory>
    requires nodes { nodes.now ≡ sorted kept.now.nodes }
    requires edges { edges.now ≡ sorted_edges kept.now.edges }
    requires sites { sites.now ≡ sites_of (decoded T.rows) (code_in (image_of elf.now.bytes).loads) nodes.now }
    requires can { IsPlanned (decoded T.rows) elf.now.bytes (kept_in kept.now) range.now }
    ensures all { IfOk result (λ frags.
        frags ≡ fragments_of (decoded T.rows) (image_of elf.now.bytes) (kept_in kept.now)) }
    ensures may_lay { IfOk result (MayLay T.rows range.now.code range.now.stubs) }
{
    table_facts::<T>();
    sized_stand_near();
    let list = fragment_list::<T>(alloc, elf, nodes, kept, edges, range.scratch)?;
    let routine = routine_items::<T>(alloc, range.scratch, sites)?;
    let tables = table_pairs(alloc, edges, sites, range.tables)?;
    Ok(Fragments {
        list,
        routine,
        tables,
        stubs: stub_pairs(alloc, nodes, range.stubs)?,
    })
}

// The code of fragments that are laid out and emitted.
fn laid_code<T: InsnTable>(
    alloc: Global,
    frags: &Fragments,
    range: &AddedRange,
) -> Result<LaidCode, OutOfMemory>
    requires { MayLay T.rows range.now.code range.now.stubs frags.now }
    ensures { IfOk result (IsLaid T.rows range.now frags.now) }
{
    table_facts::<T>();
    let laid = layout::<T>(alloc, frags, range.code, range.stubs)?;
    let places = places_of(alloc, frags.list.as_slice(), laid.places.as_slice())?;
    let routine = routine_place(frags.routine.as_slice(), laid.places.as_slice());
    Ok(LaidCode {
        bytes: emit::<T>(alloc, frags, &laid)?,
        places,
        routine,
    })
}

// The place of each fragment: that of its first item, where the items have these places.
fn places_of(alloc: Global, list: &[Fragment], places: &[u64]) -> Result<Pairs, OutOfMemory>
    requires { item_count list.now ≤ length places.now }
    ensures { IfOk result (λ pairs. pairs ≡ places_from places.now 0 list.now) }
{
    let mut pairs = Pairs::new(alloc);
    let mut first = 0;
    for fragment in list {
        pairs.push((fragment.at, place(places, first)))?;
        first += fragment.items.as_slice().len();
    }
    Ok(pairs)
}

// The place of the first item of the routine, which stands last; 0 where it has none.
fn routine_place(routine: &[Item], places: &[u64]) -> u64
    requires { length routine.now ≤ length places.now }
    ensures { result ≡ routine_in places.now routine.now }
{
    match routine {
        [] => 0,
        [_, ..] => place(places, places.len() - routine.len()),
    }
}

// The place of a number; 0 where there is none.
fn place(places: &[u64], number: usize) -> u64
    ensures { result ≡ slice_index places.now number }
{
    if number < places.len() {
        places[number]
    } else {
        0
    }
}

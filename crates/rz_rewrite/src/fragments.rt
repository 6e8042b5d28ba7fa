//! The fragments of what is kept.

ghost use Rattle.std.specs.Prelude.{◌≡◌, ◌+◌, ◌<◌, length, drop, IfOk};
ghost use Rattle.rz_elf.specs.Elf.{image_of};
ghost use Rattle.rz_isa.specs.Decoded.{decoded};
ghost use Rattle.rz_machine.specs.Nodes.{code_in};
ghost use Rattle.rz_machine.specs.Kept.{sorted_edges};
ghost use Rattle.rz_machine.specs.Sequence.{items_for, items_of, node_items};
ghost use Rattle.rz_rewrite.specs.Fragments.{is_needless as is_needless_of, first_node, fragment_list as fragment_list_of, trimmed as trimmed_of};
ghost use Rattle.rz_rewrite.specs.Calls.Plan.{AreMovable, CanMoveAt, IsMovable};

use crate::nodes::{decoded_at, is_site};
use crate::targets::targets_from;
use rz_aset::Record;
use rz_elf::elf::Elf;
use rz_frag::fragment;
use rz_isa::{Decoded, Fragment, FragmentList, Insn, InsnTable, Item, Items, Label};
use rz_num::OutOfMemory;
use rz_sites::site;
use std::alloc::Global;

/// The fragments of nodes of a file, for the kept edges, which are given in ascending order, too; `scratch` is the address
/// of the scratch page. A last jump to the fragment that follows is left out, where it isn't the only item. Where nothing
/// is decoded at a node, its fragment ends the run. It refuses for want of memory alone.
pub fn fragment_list<T: InsnTable>(
    alloc: Global,
    elf: &Elf,
    nodes: &[u64],
    kept: &Record,
    edges: &[(u64, u64)],
    scratch: u64,
) -> Result<FragmentList, OutOfMemory>
    requires edges { edges.now ≡ sorted_edges kept.now.edges }
    requires movable { AreMovable
        (decoded T.rows) (code_in (image_of elf.now.bytes).loads) scratch kept.now.edges nodes.now }
    ensures { IfOk result (λ list. list ≡ fragment_list_of (node_items
        (decoded T.rows) (code_in (image_of elf.now.bytes).loads) scratch kept.now.edges) nodes.now) }
{
    let mut list = Vec::new(alloc);
    for i in 0..nodes.len() {
        let at = nodes[i];
        let decoded = decoded_at::<T>(elf, at);
        let items = items_at::<T>(alloc, at, &decoded, kept, edges, scratch)?;
        let items = trimmed(alloc, items, node_after(nodes, i))?;
        list.push(Fragment { at, items })?;
    }
    Ok(FragmentList::from_vec(list))
}

// The items of what is decoded at an address, the whole sequence.
fn items_at<T: InsnTable>(
    alloc: Global,
    at: u64,
    decoded: &Decoded,
    kept: &Record,
    edges: &[(u64, u64)],
    scratch: u64,
) -> Result<Items, OutOfMemory>
    requires edges { edges.now ≡ sorted_edges kept.now.edges }
    requires movable { CanMoveAt scratch kept.now.edges at decoded.now }
    ensures { IfOk result (λ items. items ≡ items_for scratch kept.now.edges at decoded.now) }
{
    match *decoded {
        Decoded::Insn { insn, len } => insn_items::<T>(alloc, at, &insn, len, kept, edges, scratch),
        Decoded::Short | Decoded::Unknown => Items::from_slice(alloc, &[Item::Whole(Insn::Ud2)]),
    }
}

// The items of an instruction of `len` bytes at an address, the whole sequence.
fn insn_items<T: InsnTable>(
    alloc: Global,
    at: u64,
    insn: &Insn,
    len: u8,
    kept: &Record,
    edges: &[(u64, u64)],
    scratch: u64,
) -> Result<Items, OutOfMemory>
    requires edges { edges.now ≡ sorted_edges kept.now.edges }
    requires movable { IsMovable scratch kept.now.edges at len insn.now }
    ensures { IfOk result (λ items. items ≡ items_of scratch kept.now.edges at (at + len) insn.now) }
{
    if is_site(insn) {
        let targets = targets_from(alloc, edges, at)?;
        site::<T>(alloc, at, insn, len, &targets, scratch)
    } else {
        Ok(fragment::<T>(alloc, at, insn, len, kept)?.items)
    }
}

// Items without a last jump to the fragment that follows, where it isn't the only item.
fn trimmed(alloc: Global, items: Items, following: Option<u64>) -> Result<Items, OutOfMemory>
    ensures { IfOk result (λ list. list ≡ trimmed_of following items) }
{
    let all = items.as_slice();
    let count = all.len();
    if count < 2 {
        return Ok(items);
    }
    if is_needless(following, &all[count - 1]) {
        return Items::from_slice(alloc, &all[..count - 1]);
    }
    Ok(items)
}

// Whether an item is a jump to the fragment that follows.
fn is_needless(following: Option<u64>, item: &Item) -> bool
    ensures { result ≡ is_needless_of following item.now }
{
    match item {
        Item::Jump {
            cond: None,
            to: Label::Place(a),
        } => following == Some(*a),
        _ => false,
    }
}

// The node after the one at a place.
fn node_after(nodes: &[u64], i: usize) -> Option<u64>
    requires { i < length nodes.now }
    ensures { result ≡ first_node (drop (i + 1) nodes.now) }
{
    match &nodes[i + 1..] {
        [] => None,
        [next, ..] => Some(*next),
    }
}

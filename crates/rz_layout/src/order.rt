//! The items of fragments in one order, and the numbers that labels name there.

ghost use Rattle.std.specs.Prelude.{◌≡◌, slice_index_or, Some, None, IfOk, OnOk, ◌+◌, nat_le, if◌then◌else◌};
ghost use Rattle.rz_isa.specs.Items.{first_number as first_number_of};
ghost use Rattle.rz_layout.specs.Layout.{IsAscending};
ghost use Rattle.rz_layout.specs.Order.{appended, index_of, number_in, IsOrderOf};

use rz_isa::{Fragments, Item, Label, Slot};
use rz_num::OutOfMemory;
use std::alloc::Global;

/// The items of fragments, with the numbers at which their lists begin.
#[derive(Drop)]
pub struct Order {
    pub slots: Vec<Slot>,
    /// The address of each fragment.
    pub nodes: Vec<u64>,
    /// The number of each fragment's first item, where it has one.
    pub starts: Vec<Option<usize>>,
    /// The number of the routine's first item, where it has one.
    pub routine: Option<usize>,
}

/// The items of fragments in their order. It refuses for want of memory alone.
pub fn in_order(alloc: Global, frags: &Fragments) -> Result<Order, OutOfMemory>
    ensures { IfOk result (λ order. IsOrderOf frags.now order) }
{
    let mut slots = Vec::new(alloc);
    let mut nodes = Vec::new(alloc);
    let mut starts = Vec::new(alloc);
    for fragment in frags.list.as_slice() {
        let items = fragment.items.as_slice();
        nodes.push(fragment.at)?;
        starts.push(first_number(slots.len(), items))?;
        push_slots(items, &mut slots)?;
    }
    let items = frags.routine.as_slice();
    let routine = first_number(slots.len(), items);
    push_slots(items, &mut slots)?;
    Ok(Order {
        slots,
        nodes,
        starts,
        routine,
    })
}

// The number of the first item of a list that begins at a number.
fn first_number(first: usize, items: &[Item]) -> Option<usize>
    ensures { result ≡ first_number_of first items.now }
{
    if items.is_empty() { None } else { Some(first) }
}

// Appends the items of a list.
fn push_slots(items: &[Item], slots: &mut Vec<Slot>) -> Result<(), OutOfMemory>
    ensures { OnOk result (slots.new.items ≡ appended slots.old.items items.now) }
{
    let first = slots.len();
    let stop = first + items.len();
    for item in items {
        slots.push(Slot {
            item: *item,
            first,
            stop,
        })?;
    }
    Ok(())
}

impl Order {
    /// The number of a label in an item's list; `None` where it names no item and not the place
    /// behind the list's last one.
    pub fn number(&self, slot: &Slot, to: &Label) -> Option<usize>
        requires { IsAscending self.now.nodes.items }
        ensures { result ≡ number_in self.now slot.now to.now }
    {
        match *to {
            Label::Place(a) => start_at(self.starts.as_slice(), rank(self.nodes.as_slice(), a)),
            Label::Item(k) => item_number(slot.first, slot.stop, k as usize),
            Label::Routine => self.routine,
            Label::Stub(_) | Label::Table(_) => None,
        }
    }
}

// The number of the k-th item of a list between two numbers.
fn item_number(first: usize, stop: usize, k: usize) -> Option<usize>
    ensures { result ≡ (if nat_le (first + k) stop then Some (first + k) else None) }
{
    match first.checked_add(k) {
        Some(number) => { if number <= stop { Some(number) } else { None } }
        None => None,
    }
}

// The start of a rank.
fn start_at(starts: &[Option<usize>], rank: usize) -> Option<usize>
    ensures { result ≡ slice_index_or starts.now rank None }
{
    if rank < starts.len() {
        starts[rank]
    } else {
        None
    }
}

// The rank of a member among ascending addresses, from 0; their number where it is no member.
fn rank(nodes: &[u64], a: u64) -> usize
    requires { IsAscending nodes.now }
    ensures { result ≡ index_of nodes.now a }
{
    match nodes.binary_search(&a) {
        Ok(i) => i,
        Err(_) => nodes.len(),
    }
}

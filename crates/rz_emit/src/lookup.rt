//! Labels looked up, and the instructions of items with their labels' addresses.

ghost use Rattle.std.specs.Prelude.{◌≡◌, ◌^◌, ◌<◌};
ghost use Rattle.rz_isa.specs.Items.{beside as beside_of, resolved, store as store_of};
ghost use Rattle.rz_emit.specs.Emitted.{keys_of, IsOrdered};
ghost use Rattle.rz_emit.specs.Calls.Lookup.{address_in, place_in};
ghost use Rattle.rz_layout.specs.Layout.{IsAscending};

use rz_isa::{Fragments, Insn, Item, Label, Mem, Operand, Place, Slot};
use rz_layout::order::Order;
use rz_num::Width;

/// Where the items of fragments stand: their order, the place of each, and the end of the last.
#[derive(Clone, Copy)]
pub struct Standing<'a> {
    pub frags: &'a Fragments,
    pub order: &'a Order,
    pub places: &'a [u64],
    pub stop: u64,
}

impl<'a> Standing<'a> {
    /// The instruction that an item is, with its label's address.
    pub fn insn(&self, slot: &Slot) -> Option<Insn>
        requires ordered { IsOrdered self.now.frags.now }
        requires nodes { IsAscending self.now.order.now.nodes.items }
        ensures { result ≡ resolved
            (address_in self.now.frags.now self.now.order.now self.now.places.now self.now.stop slot.now)
            slot.now.item }
    {
        match &slot.item {
            Item::Whole(insn) => Some(*insn),
            Item::Jump { cond: None, to } => Some(Insn::Jmp {
                target: self.address(slot, to)?,
            }),
            Item::Jump {
                cond: Some(cond),
                to,
            } => Some(Insn::Jcc {
                cond: *cond,
                target: self.address(slot, to)?,
            }),
            Item::Jrcxz { to } => Some(Insn::Jrcxz {
                target: self.address(slot, to)?,
            }),
            Item::Store { at, label } => {
                if *at < 0x8000_0000 {
                    Some(store(*at, self.address(slot, label)?))
                } else {
                    None
                }
            }
        }
    }

    // The address of a label of an item.
    fn address(&self, slot: &Slot, to: &Label) -> Option<u64>
        requires ordered { IsOrdered self.now.frags.now }
        requires nodes { IsAscending self.now.order.now.nodes.items }
        ensures { result ≡ address_in self.now.frags.now self.now.order.now
            self.now.places.now self.now.stop slot.now to.now }
    {
        match to {
            Label::Stub(a) => beside(self.frags.stubs.as_slice(), *a),
            Label::Table(a) => beside(self.frags.tables.as_slice(), *a),
            Label::Place(_) | Label::Item(_) | Label::Routine => {
                Some(self.place(self.order.number(slot, to)?))
            }
        }
    }

    /// The place of the item of a number, or the end of the last.
    pub fn place(&self, number: usize) -> u64
        ensures { result ≡ place_in self.now.places.now self.now.stop number }
    {
        self.places.get(number).copied().unwrap_or(self.stop)
    }
}

// What stands beside an address in pairs.
fn beside(pairs: &[(u64, u64)], a: u64) -> Option<u64>
    requires { IsAscending (keys_of pairs.now) }
    ensures { result ≡ beside_of pairs.now a }
{
    match pairs.binary_search_by_key(&a, |&(key, _)| key) {
        Ok(i) => Some(pairs[i].1),
        Err(_) => None,
    }
}

// The move of a number to the 64-bit word at a low address.
fn store(at: u64, number: u64) -> Insn
    requires { at < 2 ^ 31 }
    ensures { result ≡ store_of at number }
{
    Insn::Mov {
        w: Width::W64,
        dst: Place::Mem(Mem {
            base: None,
            index: None,
            scale: 1,
            disp: at as i32,
        }),
        src: Operand::Imm(number),
    }
}

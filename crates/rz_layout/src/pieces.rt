//! Fragments as pieces of code.

ghost use Rattle.std.specs.Prelude.{◌≡◌, All, IfOk};
ghost use Rattle.rz_isa.specs.Items.{slots};
ghost use Rattle.rz_isa.specs.Plan.{near_len as near_len_of};
ghost use Rattle.rz_layout.specs.Layout.{IsAscending, nodes_of};
ghost use Rattle.rz_layout.specs.Calls.Ordered.{ordered_piece, ordered_pieces as ordered_pieces_of, pieces_of as pieces_of_items, IsChosen};

use crate::order::{Order, in_order};
use crate::piece::Piece;
use rz_encode::form_len;
use rz_flags::Cond;
use rz_isa::{Form, Fragments, InsnTable, Item, Label, Slot};
use rz_num::OutOfMemory;
use std::alloc::Global;

/// The pieces of the items of fragments, in their order. It refuses for want of memory alone.
pub fn pieces_of<T: InsnTable>(alloc: Global, frags: &Fragments) -> Result<Vec<Piece>, OutOfMemory>
    requires ascending { IsAscending (nodes_of frags.now.list) }
    requires chosen { All (IsChosen T.rows) (slots frags.now) }
    ensures { IfOk result (λ pieces. pieces.items ≡ pieces_of_items T.rows frags.now) }
{
    let order = in_order(alloc, frags)?;
    ordered_pieces::<T>(alloc, &order)
}

// The pieces of items in an order.
fn ordered_pieces<T: InsnTable>(alloc: Global, order: &Order) -> Result<Vec<Piece>, OutOfMemory>
    requires ascending { IsAscending order.now.nodes.items }
    requires chosen { All (IsChosen T.rows) order.now.slots.items }
    ensures { IfOk result (λ pieces. pieces.items ≡ ordered_pieces_of T.rows order.now) }
{
    let mut pieces = Vec::new(alloc);
    for slot in order.slots.as_slice() {
        pieces.push(piece::<T>(order, slot))?;
    }
    Ok(pieces)
}

// The piece of an item.
fn piece<T: InsnTable>(order: &Order, slot: &Slot) -> Piece
    requires ascending { IsAscending order.now.nodes.items }
    requires chosen { IsChosen T.rows slot.now }
    ensures { result ≡ ordered_piece T.rows order.now slot.now }
{
    match &slot.item {
        Item::Whole(insn) => Piece::Fixed(u64::from(form_len::<T>(insn, Form::Near))),
        Item::Jump { cond, to } => match to {
            Label::Stub(_) => Piece::Fixed(near_len(*cond)),
            Label::Place(_) | Label::Item(_) | Label::Table(_) | Label::Routine => Piece::Jump {
                cond: cond.is_some(),
                to: order.number(slot, to).unwrap_or(0),
            },
        },
        Item::Jrcxz { .. } => Piece::Fixed(2),
        Item::Store { .. } => Piece::Fixed(12),
    }
}

// The length of a near jump, in bytes.
fn near_len(cond: Option<Cond>) -> u64
    ensures { result ≡ near_len_of cond }
{
    match cond {
        None => 5,
        Some(_) => 6,
    }
}

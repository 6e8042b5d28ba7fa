//! The bytes of fragments by their layout.

ghost use Rattle.std.specs.Prelude.{◌≡◌, ◌≤◌, ◌<◌, ◌+◌, ◌^◌, ◌++◌, length, Some, IsSome, All, IfOk, OnOk};
ghost use Rattle.rz_isa.specs.Canonical.{canonical};
ghost use Rattle.rz_isa.specs.Plan.{form_at as form_of_number};
ghost use Rattle.rz_layout.specs.Layout.{AreFirst};
ghost use Rattle.rz_elf.specs.AddedRange.{filled as filled_up};
ghost use Rattle.rz_emit.specs.Emitted.{emitted, spelling, HoldsItems, IsLayoutOf, IsOrdered};
ghost use Rattle.rz_emit.specs.Calls.Lengths.{slot_place, IsChosen};

use crate::length::item_len;
use crate::lookup::Standing;
use rz_elf::format::INT3;
use rz_encode::encode;
use rz_encode::laws::decodes_back;
use rz_isa::{Form, Fragments, Insn, InsnTable, Slot};
use rz_layout::laws::order_numbers;
use rz_layout::order::in_order;
use rz_layout::plan::Layout;
use rz_num::{Bytes, OutOfMemory};
use std::alloc::Global;

/// The bytes from the layout's `base` to its `stubs`: the canonical spelling of each item in its
/// form at its place, with its label's address, and INT3 behind the last. It refuses for want of
/// memory alone.
pub fn emit<T: InsnTable>(
    alloc: Global,
    frags: &Fragments,
    laid: &Layout,
) -> Result<Bytes, OutOfMemory>
    requires ordered { IsOrdered frags.now }
    requires laid { IsLayoutOf T.rows frags.now laid.now }
    ensures value { IfOk result (λ bytes. bytes ≡ emitted T.rows frags.now laid.now) }
    ensures items { IfOk result (λ bytes. HoldsItems T.rows frags.now laid.now.base laid.now.forms bytes) }
{
    decodes_back::<T>();
    order_numbers();
    let size = distance(laid.base, laid.stubs);
    let order = in_order(alloc, frags)?;
    let slots = order.slots.as_slice();
    let standing = Standing {
        frags,
        order: &order,
        places: laid.places.as_slice(),
        stop: code_end::<T>(slots, laid),
    };
    let mut out = Bytes::new(alloc);
    for (k, slot) in slots.iter().enumerate() {
        if let Some(insn) = standing.insn(slot) {
            emit_insn::<T>(&insn, standing.place(k), form_at(laid, k), &mut out)?;
        }
    }
    filled(out, size)
}

// How many bytes lie between two addresses.
fn distance(from: u64, to: u64) -> u64
    requires { from ≤ to }
    ensures value { from + result ≡ to }
    ensures low { to < 2 ^ 64 }
{
    to - from
}

// Where items end that stand by a layout.
fn code_end<T: InsnTable>(slots: &[Slot], laid: &Layout) -> u64
    requires places { AreFirst (length slots.now)
        (slot_place T.rows slots.now laid.now.base laid.now.forms) laid.now.places }
    requires chosen { All (λ s. IsChosen T.rows s.item) slots.now }
    requires low { slot_place T.rows slots.now laid.now.base laid.now.forms (length slots.now) < 2 ^ 64 }
    ensures { result ≡ slot_place T.rows slots.now laid.now.base laid.now.forms (length slots.now) }
{
    match slots.len().checked_sub(1) {
        None => laid.base,
        Some(k) => { laid.places.as_slice()[k] + item_len::<T>(&slots[k].item, form_at(laid, k)) }
    }
}

// Appends the canonical spelling of a form that an instruction has at an address.
fn emit_insn<T: InsnTable>(
    insn: &Insn,
    at: u64,
    form: Form,
    out: &mut Bytes,
) -> Result<(), OutOfMemory>
    requires { IsSome (canonical T.rows insn.now at form) }
    ensures { OnOk result (out.new ≡ out.old ++ spelling T.rows at form (Some insn.now)) }
{
    let mut buffer = [0; 15];
    let len = encode::<T>(insn, at, form, &mut buffer);
    out.push_all(&buffer[..len as usize])
}

// The form of the item of a number.
fn form_at(laid: &Layout, k: usize) -> Form
    ensures { result ≡ form_of_number laid.now.forms k }
{
    match laid.forms.as_slice().get(k) {
        None => Form::Near,
        Some(form) => *form,
    }
}

// Bytes filled up to a size.
fn filled(bytes: Bytes, size: u64) -> Result<Bytes, OutOfMemory>
    requires { length bytes ≤ size }
    ensures { IfOk result (λ list. list ≡ filled_up size bytes) }
{
    let mut items = bytes.into_vec();
    items.resize(size as usize, INT3)?;
    Ok(Bytes::from_vec(items))
}

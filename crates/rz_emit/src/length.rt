//! Lengths of items.

ghost use Rattle.std.specs.Prelude.{◌≡◌};
ghost use Rattle.rz_isa.specs.Plan.{is_inner as is_inner_label, item_len as len_of_item, jump_len as len_of_jump};
ghost use Rattle.rz_emit.specs.Calls.Lengths.{IsChosen};

use rz_encode::form_len;
use rz_flags::Cond;
use rz_isa::{Form, InsnTable, Item, Label};

/// The length of an item in a form, in bytes.
pub fn item_len<T: InsnTable>(item: &Item, form: Form) -> u64
    requires { IsChosen T.rows item.now }
    ensures { result ≡ len_of_item T.rows item.now form }
{
    match item {
        Item::Whole(insn) => u64::from(form_len::<T>(insn, Form::Near)),
        Item::Jump { cond, to } => jump_len(*cond, is_inner(to), form),
        Item::Jrcxz { .. } => 2,
        Item::Store { .. } => 12,
    }
}

// Whether a label is no stub.
fn is_inner(to: &Label) -> bool
    ensures { result ≡ is_inner_label to.now }
{
    !matches!(to, Label::Stub(_))
}

// The length of a jump; one to a stub is always near.
fn jump_len(cond: Option<Cond>, inner: bool, form: Form) -> u64
    ensures { result ≡ len_of_jump cond inner form }
{
    match (inner, form, cond) {
        (true, Form::Short, _) => 2,
        (_, _, None) => 5,
        (_, _, Some(_)) => 6,
    }
}

//! The items of the lookup routine.

ghost use Rattle.std.specs.Prelude.{◌≡◌, ◌+◌, ◌^◌, ◌≤◌, IfOk};
ghost use Rattle.rz_isa.specs.Decoded.{decoded};
ghost use Rattle.rz_lookup.specs.Routine.{lookup_items as lookup_items_of, IsRoutine, IsSizedRoutine, IsClosed};

use crate::instructions::{
    RAX, RCX, RSP, absolute, advance, based, branch, compare, compare_low, halve, jump_to, load,
    load_number, paired, rcx, store,
};
use crate::laws::{routine_is_sized, routine_looks_up};
use rz_flags::Cond;
use rz_isa::{Insn, InsnTable, Item, Items, Operand, Place};
use rz_num::{OutOfMemory, Width};
use std::alloc::Global;

/// The lookup routine. As its first item begins, the word at the scratch page is the site's RCX, the third word there is
/// the address of a table, and RCX is the value. It goes to the new place of the value, where that is an old target of
/// the table, and else to the table's stub. It takes at most 22 steps, and 7 more for each binary digit of the number of
/// pairs, uses the scratch page from the fourth word on, and leaves all other memory, the flags and the registers but for
/// RCX, which is the site's. It has at most 512 bytes. It refuses for want of memory alone.
pub fn routine<T: InsnTable>(alloc: Global, scratch: u64) -> Result<Items, OutOfMemory>
    requires { scratch + 4096 ≤ 2 ^ 31 }
    ensures value { IfOk result (λ items. items ≡ lookup_items_of scratch) }
    ensures looks_up { IfOk result (λ items. IsRoutine (decoded T.rows) scratch items) }
    ensures sized { IfOk result (λ items. IsSizedRoutine T.rows items) }
    ensures closed { IfOk result (λ items. IsClosed items) }
{
    routine_looks_up::<T>();
    routine_is_sized::<T>();
    Ok(lookup_items(alloc, scratch)?)
}

// The items of the routine, one by one.
fn lookup_items(alloc: Global, scratch: u64) -> Result<Items, OutOfMemory>
    requires { scratch + 4096 ≤ 2 ^ 31 }
    ensures { IfOk result (λ items. items ≡ lookup_items_of scratch) }
{
    Items::from_slice(
        alloc,
        &[
            store(scratch + 24, RSP),
            load_number(RSP, scratch + 40),
            Item::Whole(Insn::PushFlags),
            store(scratch + 40, RAX),
            load(Width::W64, RSP, absolute(scratch + 16)),
            load(Width::W64, RAX, based(RSP, 8)),
            compare(RAX, Operand::Imm(1)),
            branch(Cond::E, 16),
            branch(Cond::B, 19),
            halve(RAX),
            branch(Cond::B, 22),
            compare_low(RCX, paired(16)),
            branch(Cond::B, 14),
            advance(RSP, paired(0)),
            halve(RAX),
            branch(Cond::NE, 10),
            load(Width::W32, RAX, based(RSP, 16)),
            compare(RAX, Operand::Place(rcx())),
            branch(Cond::E, 28),
            load(Width::W64, RAX, absolute(scratch + 16)),
            load(Width::W64, RAX, based(RAX, 0)),
            jump_to(29),
            compare_low(RCX, paired(16)),
            branch(Cond::B, 14),
            advance(RSP, paired(0)),
            advance(RAX, based(RAX, 1)),
            halve(RAX),
            jump_to(10),
            load(Width::W32, RAX, based(RSP, 20)),
            store(scratch + 48, RAX),
            load_number(RSP, scratch + 32),
            Item::Whole(Insn::PopFlags),
            load(Width::W64, RAX, absolute(scratch + 40)),
            load(Width::W64, RSP, absolute(scratch + 24)),
            load(Width::W64, RCX, absolute(scratch)),
            Item::Whole(Insn::JmpInd {
                src: Place::Mem(absolute(scratch + 48)),
            }),
        ],
    )
}

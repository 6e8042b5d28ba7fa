//! The instructions of the lookup routine.

ghost use Rattle.std.specs.Prelude.{◌≡◌, ◌^◌, ◌<◌};
ghost use Rattle.rz_isa.specs.declared.item_list.Item.TheVariants as items;
ghost use Rattle.rz_isa.specs.Emitted.{register as register_place};
ghost use Rattle.rz_isa.specs.Items.{absolute as absolute_at};
ghost use Rattle.rz_lookup.specs.Routine.{store as stored, load as loaded, load_number as number_loaded, halve as halved};
ghost use Rattle.rz_lookup.specs.Routine.{compare as compared, compare_low as low_compared, advance as advanced};
ghost use Rattle.rz_lookup.specs.Routine.{branch as branched, jump_to as jumped_to, based as based_at, paired as paired_at};

use rz_flags::{ArithOp, Cond, ShiftOp};
use rz_isa::{Count, Insn, Item, Label, Mem, Operand, Place, Reg};
use rz_num::Width;

/// The number of RAX.
pub(crate) const RAX: u8 = 0;

/// The number of RCX.
pub(crate) const RCX: u8 = 1;

/// The number of RSP.
pub(crate) const RSP: u8 = 4;

// RCX as a place.
pub(crate) fn rcx() -> Place
    ensures { result ≡ register_place 1 }
{
    Place::Reg(Reg::R(RCX))
}

// The memory at an absolute address.
pub(crate) fn absolute(at: u64) -> Mem
    requires { at < 2 ^ 31 }
    ensures { result ≡ absolute_at at }
{
    Mem {
        base: None,
        index: None,
        scale: 1,
        disp: at as i32,
    }
}

// The memory so far behind the address in a register.
pub(crate) fn based(register: u8, disp: u8) -> Mem
    ensures { result ≡ based_at register disp }
{
    Mem {
        base: Some(register),
        index: None,
        scale: 1,
        disp: disp as i32,
    }
}

// The memory at RSP, 8 times RAX and a displacement.
pub(crate) fn paired(disp: u8) -> Mem
    ensures { result ≡ paired_at disp }
{
    Mem {
        base: Some(RSP),
        index: Some(RAX),
        scale: 8,
        disp: disp as i32,
    }
}

// The move of a register to the word at an address.
pub(crate) fn store(at: u64, register: u8) -> Item
    requires { at < 2 ^ 31 }
    ensures { result ≡ items.Whole (stored at register) }
{
    Item::Whole(Insn::Mov {
        w: Width::W64,
        dst: Place::Mem(absolute(at)),
        src: Operand::Place(Place::Reg(Reg::R(register))),
    })
}

// The move of memory to a register.
pub(crate) fn load(w: Width, register: u8, from: Mem) -> Item
    ensures { result ≡ items.Whole (loaded w register from) }
{
    Item::Whole(Insn::Mov {
        w,
        dst: Place::Reg(Reg::R(register)),
        src: Operand::Place(Place::Mem(from)),
    })
}

// The move of a number below 2^32 to a register.
pub(crate) fn load_number(register: u8, number: u64) -> Item
    ensures { result ≡ items.Whole (number_loaded register number) }
{
    Item::Whole(Insn::Mov {
        w: Width::W32,
        dst: Place::Reg(Reg::R(register)),
        src: Operand::Imm(number),
    })
}

// The shift of a register by one bit to the right.
pub(crate) fn halve(register: u8) -> Item
    ensures { result ≡ items.Whole (halved register) }
{
    Item::Whole(Insn::Shift {
        op: ShiftOp::Shr,
        w: Width::W64,
        dst: Place::Reg(Reg::R(register)),
        count: Count::Imm(1),
    })
}

// The comparison of a register with an operand.
pub(crate) fn compare(register: u8, with: Operand) -> Item
    ensures { result ≡ items.Whole (compared register with) }
{
    Item::Whole(Insn::Arith {
        op: ArithOp::Cmp,
        w: Width::W64,
        dst: Place::Reg(Reg::R(register)),
        src: with,
    })
}

// The comparison of the low 32 bits of a register with memory.
pub(crate) fn compare_low(register: u8, with: Mem) -> Item
    ensures { result ≡ items.Whole (low_compared register with) }
{
    Item::Whole(Insn::Arith {
        op: ArithOp::Cmp,
        w: Width::W32,
        dst: Place::Reg(Reg::R(register)),
        src: Operand::Place(Place::Mem(with)),
    })
}

// The address of memory, to a register.
pub(crate) fn advance(register: u8, to: Mem) -> Item
    ensures { result ≡ items.Whole (advanced register to) }
{
    Item::Whole(Insn::Lea {
        w: Width::W64,
        dst: register,
        src: Place::Mem(to),
    })
}

// A jump to an item of the routine, under a condition.
pub(crate) fn branch(cond: Cond, to: u32) -> Item
    ensures { result ≡ branched cond to }
{
    Item::Jump {
        cond: Some(cond),
        to: Label::Item(to),
    }
}

// A jump to an item of the routine.
pub(crate) fn jump_to(to: u32) -> Item
    ensures { result ≡ jumped_to to }
{
    Item::Jump {
        cond: None,
        to: Label::Item(to),
    }
}

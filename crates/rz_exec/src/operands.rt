//! Operands: their addresses and values, and how values are put there.

ghost use Rattle.std.specs.Prelude.{◌≡◌, IsTrue};
ghost use Rattle.rz_exec.specs.Operands.{reg_or_zero as reg_or_zero_of, address as address_by, address_of as address_at, operand_address as operand_address_at, value_of as value_at, operand_value as operand_value_at, put as put_at};
ghost use Rattle.rz_exec.specs.Effect.{is_reg_or_none, is_named_mem, is_named_place, is_named_operand};

use crate::registers::{get_named, put_named};
use rz_isa::{Mem, Operand, Place};
use rz_num::Width;

#[inline(always)]
fn reg_or_zero(regs: &[u64; 16], number: Option<u8>) -> u64
    requires { IsTrue (is_reg_or_none number) }
    ensures { result ≡ reg_or_zero_of regs.now number }
{
    match number {
        Some(n) => regs[n as usize],
        None => 0,
    }
}

#[inline(always)]
fn address(regs: &[u64; 16], mem: &Mem) -> u64
    requires { IsTrue (is_named_mem mem.now) }
    ensures { result ≡ address_by regs.now mem.now }
{
    let index = reg_or_zero(regs, mem.index).wrapping_mul(mem.scale as u64);
    reg_or_zero(regs, mem.base)
        .wrapping_add(index)
        .wrapping_add(i64::from(mem.disp).cast_unsigned())
}

// The address of a place in memory; a register has none.
#[inline(always)]
pub fn address_of(regs: &[u64; 16], place: &Place) -> Option<u64>
    requires { IsTrue (is_named_place place.now) }
    ensures { result ≡ address_at regs.now place.now }
{
    match place {
        Place::Reg(_) => None,
        Place::Mem(mem) => Some(address(regs, mem)),
        Place::At(at) => Some(*at),
    }
}

#[inline(always)]
pub(crate) fn operand_address(regs: &[u64; 16], operand: &Operand) -> Option<u64>
    requires { IsTrue (is_named_operand operand.now) }
    ensures { result ≡ operand_address_at regs.now operand.now }
{
    match operand {
        Operand::Place(place) => address_of(regs, place),
        Operand::Imm(_) => None,
    }
}

// What a place holds, where a word was read for memory.
#[inline(always)]
pub fn value_of(w: Width, regs: &[u64; 16], place: &Place, word: u64) -> u64
    requires { IsTrue (is_named_place place.now) }
    ensures { result ≡ value_at w regs.now place.now word }
{
    match place {
        Place::Reg(reg) => get_named(w, regs, *reg),
        Place::Mem(_) | Place::At(_) => word,
    }
}

#[inline(always)]
pub(crate) fn operand_value(w: Width, regs: &[u64; 16], operand: &Operand, word: u64) -> u64
    requires { IsTrue (is_named_operand operand.now) }
    ensures { result ≡ operand_value_at w regs.now operand.now word }
{
    match operand {
        Operand::Place(place) => value_of(w, regs, place, word),
        Operand::Imm(value) => *value,
    }
}

// Puts a value into a place that is a register.
#[inline(always)]
pub(crate) fn put(w: Width, regs: &mut [u64; 16], place: &Place, value: u64)
    requires { IsTrue (is_named_place place.now) }
    ensures { regs.new ≡ put_at w regs.old place.now value }
{
    match place {
        Place::Reg(reg) => put_named(w, regs, *reg, value),
        Place::Mem(_) | Place::At(_) => {}
    }
}

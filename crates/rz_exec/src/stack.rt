//! The stack.

ghost use Rattle.std.specs.Prelude.{◌≡◌, IsTrue};
ghost use Rattle.rz_exec.specs.Stack.{below_top as below_top_of, popped, push_effect, pop_effect, leave_effect, push_flags_effect, pop_flags_effect};
ghost use Rattle.rz_exec.specs.Operands.{address_of as address_at};
ghost use Rattle.rz_exec.specs.Effect.{is_named_place, is_named_operand};
ghost use Rattle.rz_exec.specs.Calls.Carried.{ended, carried};

use crate::memory::{read, write};
use crate::operands::{address_of, operand_address, operand_value, put};
use crate::registers::put_reg;
use crate::state::{Cpu, Fault};
use rz_flags::{from_word, to_word};
use rz_image::memory::Memory;
use rz_isa::{Operand, Place};
use rz_num::Width;

const RSP: u8 = 4;

const RBP: u8 = 5;

// The address of the word below the top.
fn below_top(regs: &[u64; 16]) -> u64
    ensures { result ≡ below_top_of regs.now }
{
    regs[4].wrapping_sub(8)
}

// Moves RSP behind the word at an address.
fn pop_from(top: u64, regs: &mut [u64; 16])
    ensures { regs.new ≡ popped top regs.old }
{
    put_reg(Width::W64, regs, RSP, top.wrapping_add(8));
}

#[tactic(auto, unfolding(crate::specs::Form::carry))]
pub(crate) fn push(src: &Operand, cpu: &mut Cpu, mem: &mut Memory) -> Result<(), Fault>
    requires { IsTrue (is_named_operand src.now) }
    ensures done { ended cpu.new mem.new result ≡ carried (push_effect src.now) cpu.old mem.old }
    ensures rip { cpu.new.rip ≡ cpu.old.rip }
{
    let word = read(mem, Width::W64, operand_address(&cpu.regs, src))?;
    let value = operand_value(Width::W64, &cpu.regs, src, word);
    let top = below_top(&cpu.regs);
    write(mem, Width::W64, Some(top), value)?;
    put_reg(Width::W64, &mut cpu.regs, RSP, top);
    Ok(())
}

// The address of a place after the word at the top is popped.
fn address_after_pop(top: u64, regs: &[u64; 16], place: &Place) -> Option<u64>
    requires { IsTrue (is_named_place place.now) }
    ensures { result ≡ address_at (popped top regs.now) place.now }
{
    if matches!(place, Place::Reg(_)) {
        return None;
    }
    let mut grown = *regs;
    pop_from(top, &mut grown);
    address_of(&grown, place)
}

#[tactic(auto, unfolding(crate::specs::Form::carry))]
pub(crate) fn pop(dst: &Place, cpu: &mut Cpu, mem: &mut Memory) -> Result<(), Fault>
    requires { IsTrue (is_named_place dst.now) }
    ensures done { ended cpu.new mem.new result ≡ carried (pop_effect dst.now) cpu.old mem.old }
    ensures rip { cpu.new.rip ≡ cpu.old.rip }
{
    let top = cpu.regs[4];
    let word = read(mem, Width::W64, Some(top))?;
    write(
        mem,
        Width::W64,
        address_after_pop(top, &cpu.regs, dst),
        word,
    )?;
    pop_from(top, &mut cpu.regs);
    put(Width::W64, &mut cpu.regs, dst, word);
    Ok(())
}

#[tactic(auto, unfolding(crate::specs::Form::carry))]
pub(crate) fn leave(cpu: &mut Cpu, mem: &Memory) -> Result<(), Fault>
    ensures done { ended cpu.new mem.now result ≡ carried leave_effect cpu.old mem.now }
    ensures rip { cpu.new.rip ≡ cpu.old.rip }
{
    let top = cpu.regs[5];
    let word = read(mem, Width::W64, Some(top))?;
    pop_from(top, &mut cpu.regs);
    put_reg(Width::W64, &mut cpu.regs, RBP, word);
    Ok(())
}

#[tactic(auto, unfolding(crate::specs::Form::carry))]
pub(crate) fn push_flags(cpu: &mut Cpu, mem: &mut Memory) -> Result<(), Fault>
    ensures done { ended cpu.new mem.new result ≡ carried push_flags_effect cpu.old mem.old }
    ensures rip { cpu.new.rip ≡ cpu.old.rip }
{
    let top = below_top(&cpu.regs);
    write(mem, Width::W64, Some(top), to_word(cpu.flags))?;
    put_reg(Width::W64, &mut cpu.regs, RSP, top);
    Ok(())
}

#[tactic(auto, unfolding(crate::specs::Form::carry))]
pub(crate) fn pop_flags(cpu: &mut Cpu, mem: &Memory) -> Result<(), Fault>
    ensures done { ended cpu.new mem.now result ≡ carried pop_flags_effect cpu.old mem.now }
    ensures rip { cpu.new.rip ≡ cpu.old.rip }
{
    let top = cpu.regs[4];
    let word = read(mem, Width::W64, Some(top))?;
    let Some(flags) = from_word(word) else {
        return Err(Fault::Popped);
    };
    pop_from(top, &mut cpu.regs);
    cpu.flags = flags;
    Ok(())
}

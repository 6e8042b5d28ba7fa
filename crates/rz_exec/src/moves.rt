//! Moves.

ghost use Rattle.std.specs.Prelude.{◌≡◌, IsTrue, true, get_or, unwrap_or};
ghost use Rattle.rz_num.specs.Width.{sign_extended};
ghost use Rattle.rz_alu.specs.Multiply.{extension};
ghost use Rattle.rz_exec.specs.Registers.{get_reg as reg_value, put_reg as with_reg};
ghost use Rattle.rz_exec.specs.Operands.{address_of as address_at};
ghost use Rattle.rz_exec.specs.Moves.{mov_effect, extended as extended_of, extend_effect, narrower as narrower_of};
ghost use Rattle.rz_exec.specs.Effect.{is_reg, is_named_place, is_named_operand};
ghost use Rattle.rz_exec.specs.Calls.Carried.{ended, carried};

use crate::memory::{read, write};
use crate::operands::{address_of, operand_address, operand_value, put, value_of};
use crate::registers::{get_reg, put_reg};
use crate::state::{Cpu, Fault};
use rz_image::memory::Memory;
use rz_isa::{Operand, Place};
use rz_num::{Width, mask, sign_extend};

const RAX: u8 = 0;

const RDX: u8 = 2;

#[tactic(auto, unfolding(crate::specs::Form::carry))]
#[inline(always)]
pub(crate) fn mov(
    w: Width,
    dst: &Place,
    src: &Operand,
    cpu: &mut Cpu,
    mem: &mut Memory,
) -> Result<(), Fault>
    requires dst { IsTrue (is_named_place dst.now) }
    requires src { IsTrue (is_named_operand src.now) }
    ensures done { ended cpu.new mem.new result ≡ carried (mov_effect w dst.now src.now) cpu.old mem.old }
    ensures rip { cpu.new.rip ≡ cpu.old.rip }
{
    let word = read(mem, w, operand_address(&cpu.regs, src))?;
    let value = operand_value(w, &cpu.regs, src, word);
    write(mem, w, address_of(&cpu.regs, dst), value)?;
    put(w, &mut cpu.regs, dst, value);
    Ok(())
}

#[inline(always)]
pub(crate) fn lea(w: Width, dst: u8, src: &Place, regs: &mut [u64; 16])
    requires dst { IsTrue (is_reg dst) }
    requires src { IsTrue (is_named_place src.now) }
    ensures { regs.new ≡ with_reg w regs.old dst (unwrap_or (address_at regs.old src.now) 0) }
{
    let address = address_of(regs, src).unwrap_or(0);
    put_reg(w, regs, dst, address);
}

#[inline(always)]
fn extended(signed: bool, from: Width, value: u64) -> u64
    ensures { result ≡ extended_of signed from value }
{
    if signed {
        sign_extend(from, value)
    } else {
        mask(from, value)
    }
}

#[tactic(auto, unfolding(crate::specs::Form::carry))]
#[inline(always)]
pub(crate) fn extend(
    signed: bool,
    to: Width,
    from: Width,
    dst: u8,
    src: &Place,
    cpu: &mut Cpu,
    mem: &Memory,
) -> Result<(), Fault>
    requires dst { IsTrue (is_reg dst) }
    requires src { IsTrue (is_named_place src.now) }
    ensures done { ended cpu.new mem.now result ≡ carried (extend_effect signed to from dst src.now) cpu.old mem.now }
    ensures rip { cpu.new.rip ≡ cpu.old.rip }
{
    let word = read(mem, from, address_of(&cpu.regs, src))?;
    let value = extended(signed, from, value_of(from, &cpu.regs, src, word));
    put_reg(to, &mut cpu.regs, dst, value);
    Ok(())
}

// Half a width; no instruction converts to 8 bits.
fn narrower(w: Width) -> Width
    ensures { result ≡ narrower_of w }
{
    match w {
        Width::W64 => Width::W32,
        Width::W32 => Width::W16,
        Width::W16 | Width::W8 => Width::W8,
    }
}

// Extends the accumulator from half its width by its sign.
pub(crate) fn convert(w: Width, regs: &mut [u64; 16])
    ensures { regs.new ≡ with_reg w regs.old 0 (sign_extended (narrower_of w) (get_or regs.old 0 0)) }
{
    let value = sign_extend(narrower(w), regs[0]);
    put_reg(w, regs, RAX, value);
}

// Fills RDX with the sign of the accumulator.
pub(crate) fn sign_fill(w: Width, regs: &mut [u64; 16])
    ensures { regs.new ≡ with_reg w regs.old 2 (extension w true (reg_value w regs.old 0)) }
{
    let sign = if get_reg(w, regs, RAX) >= w.sign_bit() {
        w.greatest()
    } else {
        0
    };
    put_reg(w, regs, RDX, sign);
}

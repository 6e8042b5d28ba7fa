//! Arithmetic and logic with two operands and with one.

ghost use Rattle.std.specs.Prelude.{◌≡◌, IsTrue};
ghost use Rattle.rz_exec.specs.Arithmetic.{is_written as is_written_by, binary_effect, unary_effect};
ghost use Rattle.rz_exec.specs.Effect.{is_named_place, is_named_operand};
ghost use Rattle.rz_exec.specs.Calls.Carried.{ended, carried};

use crate::memory::{read, write};
use crate::operands::{address_of, operand_address, operand_value, put, value_of};
use crate::state::{Cpu, Fault};
use rz_alu::{arith, unary};
use rz_flags::{ArithOp, UnaryOp};
use rz_image::memory::Memory;
use rz_isa::{Operand, Place};
use rz_num::Width;

// Whether the operation writes its destination.
pub(crate) fn is_written(op: ArithOp) -> bool
    ensures { result ≡ is_written_by op }
{
    !matches!(op, ArithOp::Cmp)
}

// An operation on two operands, which writes the first or only the flags.
#[tactic(auto, unfolding(crate::specs::Form::carry))]
#[inline(always)]
pub(crate) fn binary(
    written: bool,
    op: ArithOp,
    w: Width,
    dst: &Place,
    src: &Operand,
    cpu: &mut Cpu,
    mem: &mut Memory,
) -> Result<(), Fault>
    requires dst { IsTrue (is_named_place dst.now) }
    requires src { IsTrue (is_named_operand src.now) }
    ensures done { ended cpu.new mem.new result ≡ carried (binary_effect written op w dst.now src.now) cpu.old mem.old }
    ensures rip { cpu.new.rip ≡ cpu.old.rip }
{
    let at = address_of(&cpu.regs, dst);
    let first = read(mem, w, at)?;
    let second = read(mem, w, operand_address(&cpu.regs, src))?;
    let a = value_of(w, &cpu.regs, dst, first);
    let b = operand_value(w, &cpu.regs, src, second);
    let (value, flags) = arith(op, w, a, b, cpu.flags);
    if written {
        write(mem, w, at, value)?;
        put(w, &mut cpu.regs, dst, value);
    }
    cpu.flags = flags;
    Ok(())
}

#[tactic(auto, unfolding(crate::specs::Form::carry))]
#[inline(always)]
pub(crate) fn one_operand(
    op: UnaryOp,
    w: Width,
    dst: &Place,
    cpu: &mut Cpu,
    mem: &mut Memory,
) -> Result<(), Fault>
    requires { IsTrue (is_named_place dst.now) }
    ensures done { ended cpu.new mem.new result ≡ carried (unary_effect op w dst.now) cpu.old mem.old }
    ensures rip { cpu.new.rip ≡ cpu.old.rip }
{
    let at = address_of(&cpu.regs, dst);
    let word = read(mem, w, at)?;
    let (value, flags) = unary(op, w, value_of(w, &cpu.regs, dst, word), cpu.flags);
    write(mem, w, at, value)?;
    put(w, &mut cpu.regs, dst, value);
    cpu.flags = flags;
    Ok(())
}

//! Products and quotients.

ghost use Rattle.std.specs.Prelude.{◌≡◌, IsTrue};
ghost use Rattle.rz_exec.specs.Products.{high_half as high_half_of, put_pair as with_pair, product_values, divided, is_signed as is_signed_by, is_division as is_division_by, wide_effect, multiplied, imul2_effect, imul3_effect};
ghost use Rattle.rz_exec.specs.Effect.{is_reg, is_named_place};
ghost use Rattle.rz_exec.specs.Calls.Carried.{ended, carried};

use crate::memory::read;
use crate::operands::{address_of, value_of};
use crate::registers::{put_named, put_reg};
use crate::state::{Cpu, Fault};
use rz_alu::{div, mul};
use rz_flags::WideOp;
use rz_image::memory::Memory;
use rz_isa::{Place, Reg};
use rz_num::Width;

const RAX: u8 = 0;

const RDX: u8 = 2;

const AH: Reg = Reg::High(0);

fn is_signed(op: WideOp) -> bool
    ensures { result ≡ is_signed_by op }
{
    matches!(op, WideOp::Imul | WideOp::Idiv)
}

fn is_division(op: WideOp) -> bool
    ensures { result ≡ is_division_by op }
{
    matches!(op, WideOp::Div | WideOp::Idiv)
}

// The high half of the number of two widths, not yet cut to the width.
fn high_half(w: Width, regs: &[u64; 16]) -> u64
    ensures { result ≡ high_half_of w regs.now }
{
    match w {
        Width::W8 => regs[0] / 0x100,
        Width::W16 | Width::W32 | Width::W64 => regs[2],
    }
}

// Puts a number of two widths: into AX at width 8, else into RDX and RAX.
fn put_pair(w: Width, regs: &mut [u64; 16], low: u64, high: u64)
    ensures { regs.new ≡ with_pair w regs.old low high }
{
    put_reg(w, regs, RAX, low);
    match w {
        Width::W8 => put_named(w, regs, AH, high),
        Width::W16 | Width::W32 | Width::W64 => put_reg(w, regs, RDX, high),
    }
}

// The accumulator times a value.
fn multiply(signed: bool, w: Width, value: u64, cpu: &mut Cpu)
    ensures regs { cpu.new.regs ≡ (product_values signed w cpu.old.regs value cpu.old.flags).regs }
    ensures flags { cpu.new.flags ≡ (product_values signed w cpu.old.regs value cpu.old.flags).flags }
    ensures rip { cpu.new.rip ≡ cpu.old.rip }
{
    let (low, high, flags) = mul(w, signed, cpu.regs[0], value, cpu.flags);
    put_pair(w, &mut cpu.regs, low, high);
    cpu.flags = flags;
}

// The quotient and the remainder of the number of two widths by a value.
fn divide(signed: bool, w: Width, value: u64, regs: &[u64; 16]) -> Option<(u64, u64)>
    ensures { result ≡ divided signed w regs.now value }
{
    div(w, signed, high_half(w, regs), regs[0], value)
}

#[tactic(auto, unfolding(crate::specs::Form::carry))]
pub(crate) fn wide(
    op: WideOp,
    w: Width,
    src: &Place,
    cpu: &mut Cpu,
    mem: &Memory,
) -> Result<(), Fault>
    requires { IsTrue (is_named_place src.now) }
    ensures done { ended cpu.new mem.now result ≡ carried (wide_effect op w src.now) cpu.old mem.now }
    ensures rip { cpu.new.rip ≡ cpu.old.rip }
{
    let word = read(mem, w, address_of(&cpu.regs, src))?;
    let value = value_of(w, &cpu.regs, src, word);
    if is_division(op) {
        let Some((quotient, rest)) = divide(is_signed(op), w, value, &cpu.regs) else {
            return Err(Fault::Divide);
        };
        put_pair(w, &mut cpu.regs, quotient, rest);
    } else {
        multiply(is_signed(op), w, value, cpu);
    }
    Ok(())
}

// The signed product of two values into a register.
fn multiply_into(w: Width, dst: u8, a: u64, b: u64, cpu: &mut Cpu)
    requires { IsTrue (is_reg dst) }
    ensures regs { cpu.new.regs ≡ (multiplied w dst cpu.old.regs a b cpu.old.flags).regs }
    ensures flags { cpu.new.flags ≡ (multiplied w dst cpu.old.regs a b cpu.old.flags).flags }
    ensures rip { cpu.new.rip ≡ cpu.old.rip }
{
    let (low, _, flags) = mul(w, true, a, b, cpu.flags);
    put_reg(w, &mut cpu.regs, dst, low);
    cpu.flags = flags;
}

#[tactic(auto, unfolding(crate::specs::Form::carry))]
pub(crate) fn imul2(
    w: Width,
    dst: u8,
    src: &Place,
    cpu: &mut Cpu,
    mem: &Memory,
) -> Result<(), Fault>
    requires dst { IsTrue (is_reg dst) }
    requires src { IsTrue (is_named_place src.now) }
    ensures done { ended cpu.new mem.now result ≡ carried (imul2_effect w dst src.now) cpu.old mem.now }
    ensures rip { cpu.new.rip ≡ cpu.old.rip }
{
    let word = read(mem, w, address_of(&cpu.regs, src))?;
    let value = value_of(w, &cpu.regs, src, word);
    multiply_into(w, dst, cpu.regs[dst as usize], value, cpu);
    Ok(())
}

#[tactic(auto, unfolding(crate::specs::Form::carry))]
pub(crate) fn imul3(
    w: Width,
    dst: u8,
    src: &Place,
    imm: u64,
    cpu: &mut Cpu,
    mem: &Memory,
) -> Result<(), Fault>
    requires dst { IsTrue (is_reg dst) }
    requires src { IsTrue (is_named_place src.now) }
    ensures done { ended cpu.new mem.now result ≡ carried (imul3_effect w dst src.now imm) cpu.old mem.now }
    ensures rip { cpu.new.rip ≡ cpu.old.rip }
{
    let word = read(mem, w, address_of(&cpu.regs, src))?;
    let value = value_of(w, &cpu.regs, src, word);
    multiply_into(w, dst, value, imm, cpu);
    Ok(())
}

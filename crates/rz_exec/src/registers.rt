//! General registers, read and written at a width.

ghost use Rattle.std.specs.Prelude.{◌≡◌, IsTrue};
ghost use Rattle.rz_exec.specs.Registers.{merge as merge_of, merge_high as merge_high_of, high_byte as high_byte_of, get_reg as reg_value, put_reg as with_reg, get_named as named_value, put_named as with_named};
ghost use Rattle.rz_exec.specs.Effect.{is_reg, is_named_reg};

use rz_isa::Reg;
use rz_num::{Width, mask};

// The low bits of the register of a number.
#[inline(always)]
pub(crate) fn get_reg(w: Width, regs: &[u64; 16], n: u8) -> u64
    requires { IsTrue (is_reg n) }
    ensures { result ≡ reg_value w regs.now n }
{
    mask(w, regs[n as usize])
}

// Writes the register of a number: 32 bits clear the upper half, 8 and 16 bits leave the rest.
#[inline(always)]
pub fn put_reg(w: Width, regs: &mut [u64; 16], n: u8, value: u64)
    requires { IsTrue (is_reg n) }
    ensures { regs.new ≡ with_reg w regs.old n value }
{
    regs[n as usize] = merge(w, regs[n as usize], value);
}

#[inline(always)]
fn merge(w: Width, old: u64, value: u64) -> u64
    ensures { result ≡ merge_of w old value }
{
    match w {
        Width::W8 | Width::W16 => old - mask(w, old) + mask(w, value),
        Width::W32 | Width::W64 => mask(w, value),
    }
}

#[inline(always)]
pub(crate) fn get_named(w: Width, regs: &[u64; 16], reg: Reg) -> u64
    requires { IsTrue (is_named_reg reg) }
    ensures { result ≡ named_value w regs.now reg }
{
    match reg {
        Reg::R(n) => get_reg(w, regs, n),
        Reg::High(n) => high_byte(regs[n as usize]),
    }
}

#[inline(always)]
pub(crate) fn put_named(w: Width, regs: &mut [u64; 16], reg: Reg, value: u64)
    requires { IsTrue (is_named_reg reg) }
    ensures { regs.new ≡ with_named w regs.old reg value }
{
    match reg {
        Reg::R(n) => put_reg(w, regs, n, value),
        Reg::High(n) => regs[n as usize] = merge_high(regs[n as usize], value),
    }
}

fn high_byte(old: u64) -> u64
    ensures { result ≡ high_byte_of old }
{
    old / 0x100 % 0x100
}

fn merge_high(old: u64, value: u64) -> u64
    ensures { result ≡ merge_high_of old value }
{
    old / 0x1_0000 * 0x1_0000 + value % 0x100 * 0x100 + old % 0x100
}

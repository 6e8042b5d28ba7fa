//! Exchanges of operands and of bytes.

ghost use Rattle.std.specs.Prelude.{◌≡◌, IsTrue, get_or};
ghost use Rattle.rz_exec.specs.Registers.{put_reg as with_reg};
ghost use Rattle.rz_exec.specs.Exchanges.{xchg_effect, cmpxchg_effect, xadd_effect, swapped as swapped_of};
ghost use Rattle.rz_exec.specs.Effect.{is_reg, is_named_reg, is_named_place};
ghost use Rattle.rz_exec.specs.Calls.Carried.{ended, carried};

use crate::memory::{read, write};
use crate::operands::{address_of, put, value_of};
use crate::registers::{get_named, get_reg, put_named, put_reg};
use crate::state::{Cpu, Fault};
use rz_flags::ArithOp;
use rz_image::memory::Memory;
use rz_isa::{Place, Reg};
use rz_num::Width;

const RAX: u8 = 0;

#[tactic(auto, unfolding(crate::specs::Form::carry))]
pub(crate) fn xchg(
    w: Width,
    dst: &Place,
    src: Reg,
    cpu: &mut Cpu,
    mem: &mut Memory,
) -> Result<(), Fault>
    requires dst { IsTrue (is_named_place dst.now) }
    requires src { IsTrue (is_named_reg src) }
    ensures done { ended cpu.new mem.new result ≡ carried (xchg_effect w dst.now src) cpu.old mem.old }
    ensures rip { cpu.new.rip ≡ cpu.old.rip }
{
    let at = address_of(&cpu.regs, dst);
    let word = read(mem, w, at)?;
    let old = value_of(w, &cpu.regs, dst, word);
    let value = get_named(w, &cpu.regs, src);
    write(mem, w, at, value)?;
    put(w, &mut cpu.regs, dst, value);
    put_named(w, &mut cpu.regs, src, old);
    Ok(())
}

#[tactic(auto, unfolding(crate::specs::Form::carry))]
pub(crate) fn cmpxchg(
    w: Width,
    dst: &Place,
    src: Reg,
    cpu: &mut Cpu,
    mem: &mut Memory,
) -> Result<(), Fault>
    requires dst { IsTrue (is_named_place dst.now) }
    requires src { IsTrue (is_named_reg src) }
    ensures done { ended cpu.new mem.new result ≡ carried (cmpxchg_effect w dst.now src) cpu.old mem.old }
    ensures rip { cpu.new.rip ≡ cpu.old.rip }
{
    let at = address_of(&cpu.regs, dst);
    let found = read(mem, w, at)?;
    let old = value_of(w, &cpu.regs, dst, found);
    let accumulator = get_reg(w, &cpu.regs, RAX);
    let (_, flags) = rz_alu::arith(ArithOp::Cmp, w, accumulator, old, cpu.flags);
    if flags.zf {
        let value = get_named(w, &cpu.regs, src);
        write(mem, w, at, value)?;
        put(w, &mut cpu.regs, dst, value);
    } else {
        write(mem, w, at, old)?;
        put_reg(w, &mut cpu.regs, RAX, old);
    }
    cpu.flags = flags;
    Ok(())
}

#[tactic(auto, unfolding(crate::specs::Form::carry))]
pub(crate) fn xadd(
    w: Width,
    dst: &Place,
    src: Reg,
    cpu: &mut Cpu,
    mem: &mut Memory,
) -> Result<(), Fault>
    requires dst { IsTrue (is_named_place dst.now) }
    requires src { IsTrue (is_named_reg src) }
    ensures done { ended cpu.new mem.new result ≡ carried (xadd_effect w dst.now src) cpu.old mem.old }
    ensures rip { cpu.new.rip ≡ cpu.old.rip }
{
    let at = address_of(&cpu.regs, dst);
    let found = read(mem, w, at)?;
    let old = value_of(w, &cpu.regs, dst, found);
    let source = get_named(w, &cpu.regs, src);
    let (sum, flags) = rz_alu::arith(ArithOp::Add, w, old, source, cpu.flags);
    write(mem, w, at, sum)?;
    put_named(w, &mut cpu.regs, src, old);
    put(w, &mut cpu.regs, dst, sum);
    cpu.flags = flags;
    Ok(())
}

// The bytes of a number in the other order.
fn swapped(w: Width, value: u64) -> u64
    ensures { result ≡ swapped_of w value }
{
    let b = value.to_le_bytes();
    match w {
        Width::W8 => b[0] as u64,
        Width::W16 => u16::from_le_bytes([b[1], b[0]]) as u64,
        Width::W32 => u32::from_le_bytes([b[3], b[2], b[1], b[0]]) as u64,
        Width::W64 => u64::from_le_bytes([b[7], b[6], b[5], b[4], b[3], b[2], b[1], b[0]]),
    }
}

pub(crate) fn bswap(w: Width, reg: u8, regs: &mut [u64; 16])
    requires { IsTrue (is_reg reg) }
    ensures { regs.new ≡ with_reg w regs.old reg (swapped_of w (get_or regs.old reg 0)) }
{
    let value = swapped(w, regs[reg as usize]);
    put_reg(w, regs, reg, value);
}

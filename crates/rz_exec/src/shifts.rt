//! Rotates, shifts and double shifts.

ghost use Rattle.std.specs.Prelude.{◌≡◌, IsTrue};
ghost use Rattle.rz_exec.specs.Shifts.{count_in as count_by, shift_effect, double_effect};
ghost use Rattle.rz_exec.specs.Effect.{is_reg, is_named_place};
ghost use Rattle.rz_exec.specs.Calls.Carried.{ended, carried};

use crate::memory::{read, write};
use crate::operands::{address_of, put, value_of};
use crate::state::{Cpu, Fault};
use rz_flags::ShiftOp;
use rz_image::memory::Memory;
use rz_isa::{Count, Place};
use rz_num::Width;

// A number, or CL.
fn count_in(regs: &[u64; 16], count: Count) -> u8
    ensures { result ≡ count_by regs.now count }
{
    match count {
        Count::Imm(n) => n,
        Count::Cl => (regs[1] % 0x100) as u8,
    }
}

#[tactic(auto, unfolding(crate::specs::Form::carry))]
pub(crate) fn shift(
    op: ShiftOp,
    w: Width,
    dst: &Place,
    count: Count,
    cpu: &mut Cpu,
    mem: &mut Memory,
) -> Result<(), Fault>
    requires { IsTrue (is_named_place dst.now) }
    ensures done { ended cpu.new mem.new result ≡ carried (shift_effect op w dst.now count) cpu.old mem.old }
    ensures rip { cpu.new.rip ≡ cpu.old.rip }
{
    let at = address_of(&cpu.regs, dst);
    let word = read(mem, w, at)?;
    let old = value_of(w, &cpu.regs, dst, word);
    let (value, flags) = rz_alu::shift(op, w, old, count_in(&cpu.regs, count), cpu.flags);
    write(mem, w, at, value)?;
    put(w, &mut cpu.regs, dst, value);
    cpu.flags = flags;
    Ok(())
}

#[tactic(auto, unfolding(crate::specs::Form::carry))]
pub(crate) fn double_shift(
    left: bool,
    w: Width,
    dst: &Place,
    src: u8,
    count: Count,
    cpu: &mut Cpu,
    mem: &mut Memory,
) -> Result<(), Fault>
    requires dst { IsTrue (is_named_place dst.now) }
    requires src { IsTrue (is_reg src) }
    ensures done { ended cpu.new mem.new result ≡ carried (double_effect left w dst.now src count) cpu.old mem.old }
    ensures rip { cpu.new.rip ≡ cpu.old.rip }
{
    let at = address_of(&cpu.regs, dst);
    let word = read(mem, w, at)?;
    let old = value_of(w, &cpu.regs, dst, word);
    let count = count_in(&cpu.regs, count);
    let more = cpu.regs[src as usize];
    let (value, flags) = rz_alu::double_shift(left, w, old, more, count, cpu.flags);
    write(mem, w, at, value)?;
    put(w, &mut cpu.regs, dst, value);
    cpu.flags = flags;
    Ok(())
}

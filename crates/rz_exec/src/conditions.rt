//! Moves and bytes by a condition.

ghost use Rattle.std.specs.Prelude.{◌≡◌, IsTrue};
ghost use Rattle.rz_exec.specs.Conditions.{cmov_effect, set_effect};
ghost use Rattle.rz_exec.specs.Effect.{is_reg, is_named_place};
ghost use Rattle.rz_exec.specs.Calls.Carried.{ended, carried};

use crate::memory::{read, write};
use crate::operands::{address_of, put, value_of};
use crate::registers::put_reg;
use crate::state::{Cpu, Fault};
use rz_flags::{Cond, holds};
use rz_image::memory::Memory;
use rz_isa::Place;
use rz_num::Width;

// The source is read whatever the condition; a move that fails writes the destination with itself.
#[tactic(auto, unfolding(crate::specs::Form::carry))]
pub(crate) fn cmov(
    cond: Cond,
    w: Width,
    dst: u8,
    src: &Place,
    cpu: &mut Cpu,
    mem: &Memory,
) -> Result<(), Fault>
    requires dst { IsTrue (is_reg dst) }
    requires src { IsTrue (is_named_place src.now) }
    ensures done { ended cpu.new mem.now result ≡ carried (cmov_effect cond w dst src.now) cpu.old mem.now }
    ensures rip { cpu.new.rip ≡ cpu.old.rip }
{
    let word = read(mem, w, address_of(&cpu.regs, src))?;
    let value = if holds(cond, cpu.flags) {
        value_of(w, &cpu.regs, src, word)
    } else {
        cpu.regs[dst as usize]
    };
    put_reg(w, &mut cpu.regs, dst, value);
    Ok(())
}

#[tactic(auto, unfolding(crate::specs::Form::carry))]
pub(crate) fn set(cond: Cond, dst: &Place, cpu: &mut Cpu, mem: &mut Memory) -> Result<(), Fault>
    requires { IsTrue (is_named_place dst.now) }
    ensures done { ended cpu.new mem.new result ≡ carried (set_effect cond dst.now) cpu.old mem.old }
    ensures rip { cpu.new.rip ≡ cpu.old.rip }
{
    let value = if holds(cond, cpu.flags) { 1 } else { 0 };
    write(mem, Width::W8, address_of(&cpu.regs, dst), value)?;
    put(Width::W8, &mut cpu.regs, dst, value);
    Ok(())
}

//! Elements of strings.

ghost use Rattle.std.specs.Prelude.{◌≡◌, ◌-◌, IsTrue, get_or, OnOk};
ghost use Rattle.rz_image.specs.Word.{byte_count as byte_count_of};
ghost use Rattle.rz_exec.specs.Strings.{moved, counted, movs_effect, stos_effect};
ghost use Rattle.rz_exec.specs.Effect.{is_reg};
ghost use Rattle.rz_exec.specs.Calls.Carried.{ended, carried};

use crate::memory::{read, write};
use crate::registers::{get_reg, put_reg};
use crate::state::{Cpu, Fault};
use rz_flags::Flags;
use rz_image::memory::Memory;
use rz_num::Width;

pub(crate) const RAX: u8 = 0;

const RCX: u8 = 1;

pub(crate) const RSI: u8 = 6;

pub(crate) const RDI: u8 = 7;

pub(crate) fn byte_count(w: Width) -> u64
    ensures { result ≡ byte_count_of w }
{
    match w {
        Width::W8 => 1,
        Width::W16 => 2,
        Width::W32 => 4,
        Width::W64 => 8,
    }
}

// Moves a pointer register by the width in bytes, down where DF is set.
pub(crate) fn move_on(w: Width, flags: Flags, n: u8, regs: &mut [u64; 16])
    requires { IsTrue (is_reg n) }
    ensures { regs.new ≡ moved w flags n regs.old }
{
    let at = regs[n as usize];
    let next = if flags.df {
        at.wrapping_sub(byte_count(w))
    } else {
        at.wrapping_add(byte_count(w))
    };
    put_reg(Width::W64, regs, n, next);
}

// Counts RCX down in a repeat.
pub(crate) fn count_down(rep: bool, regs: &mut [u64; 16])
    ensures regs { regs.new ≡ counted rep regs.old }
    ensures count { IsTrue rep → get_or regs.new 1 0 ≡ get_or regs.old 1 0 - 1 }
{
    if rep {
        let left = regs[1].saturating_sub(1);
        put_reg(Width::W64, regs, RCX, left);
    }
}

#[tactic(auto, unfolding(crate::specs::Form::carry))]
pub(crate) fn movs(w: Width, rep: bool, cpu: &mut Cpu, mem: &mut Memory) -> Result<(), Fault>
    ensures done { ended cpu.new mem.new result ≡ carried (movs_effect w rep) cpu.old mem.old }
    ensures count { IsTrue rep → OnOk result (get_or cpu.new.regs 1 0 ≡ get_or cpu.old.regs 1 0 - 1) }
    ensures rip { cpu.new.rip ≡ cpu.old.rip }
    ensures flags { cpu.new.flags ≡ cpu.old.flags }
{
    let word = read(mem, w, Some(cpu.regs[6]))?;
    write(mem, w, Some(cpu.regs[7]), word)?;
    move_on(w, cpu.flags, RSI, &mut cpu.regs);
    move_on(w, cpu.flags, RDI, &mut cpu.regs);
    count_down(rep, &mut cpu.regs);
    Ok(())
}

#[tactic(auto, unfolding(crate::specs::Form::carry))]
pub(crate) fn stos(w: Width, rep: bool, cpu: &mut Cpu, mem: &mut Memory) -> Result<(), Fault>
    ensures done { ended cpu.new mem.new result ≡ carried (stos_effect w rep) cpu.old mem.old }
    ensures count { IsTrue rep → OnOk result (get_or cpu.new.regs 1 0 ≡ get_or cpu.old.regs 1 0 - 1) }
    ensures rip { cpu.new.rip ≡ cpu.old.rip }
    ensures flags { cpu.new.flags ≡ cpu.old.flags }
{
    let word = get_reg(w, &cpu.regs, RAX);
    write(mem, w, Some(cpu.regs[7]), word)?;
    move_on(w, cpu.flags, RDI, &mut cpu.regs);
    count_down(rep, &mut cpu.regs);
    Ok(())
}

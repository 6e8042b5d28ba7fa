//! Strings compared, by one element or by as many as RCX and ZF say.

ghost use Rattle.std.specs.Prelude.{◌≡◌, ◌-◌, IsTrue, true, get_or, OnOk};
ghost use Rattle.rz_exec.specs.Comparisons.{compared as compared_of, cmps_effect, scas_effect, goes_on as goes_on_by, while_zero};
ghost use Rattle.rz_exec.specs.Calls.Carried.{ended, carried, repeated_by};

use crate::memory::read;
use crate::registers::get_reg;
use crate::state::{Cpu, Fault};
use crate::strings::{RAX, RDI, RSI, count_down, move_on};
use rz_flags::{ArithOp, Flags};
use rz_image::memory::Memory;
use rz_isa::Rep;
use rz_num::Width;

// The flags after CMP.
fn compared(w: Width, a: u64, b: u64, flags: Flags) -> Flags
    ensures { result ≡ compared_of w a b flags }
{
    rz_alu::arith(ArithOp::Cmp, w, a, b, flags).1
}

#[tactic(auto, unfolding(crate::specs::Form::carry))]
pub(crate) fn cmps(w: Width, rep: bool, cpu: &mut Cpu, mem: &Memory) -> Result<(), Fault>
    ensures done { ended cpu.new mem.now result ≡ carried (cmps_effect w rep) cpu.old mem.now }
    ensures count { IsTrue rep → OnOk result (get_or cpu.new.regs 1 0 ≡ get_or cpu.old.regs 1 0 - 1) }
    ensures rip { cpu.new.rip ≡ cpu.old.rip }
{
    let first = read(mem, w, Some(cpu.regs[6]))?;
    let second = read(mem, w, Some(cpu.regs[7]))?;
    move_on(w, cpu.flags, RSI, &mut cpu.regs);
    move_on(w, cpu.flags, RDI, &mut cpu.regs);
    count_down(rep, &mut cpu.regs);
    cpu.flags = compared(w, first, second, cpu.flags);
    Ok(())
}

#[tactic(auto, unfolding(crate::specs::Form::carry))]
pub(crate) fn scas(w: Width, rep: bool, cpu: &mut Cpu, mem: &Memory) -> Result<(), Fault>
    ensures done { ended cpu.new mem.now result ≡ carried (scas_effect w rep) cpu.old mem.now }
    ensures count { IsTrue rep → OnOk result (get_or cpu.new.regs 1 0 ≡ get_or cpu.old.regs 1 0 - 1) }
    ensures rip { cpu.new.rip ≡ cpu.old.rip }
{
    let element = read(mem, w, Some(cpu.regs[7]))?;
    let accumulator = get_reg(w, &cpu.regs, RAX);
    move_on(w, cpu.flags, RDI, &mut cpu.regs);
    count_down(rep, &mut cpu.regs);
    cpu.flags = compared(w, accumulator, element, cpu.flags);
    Ok(())
}

// Whether the flags let another iteration follow.
fn goes_on(rep: Rep, flags: Flags) -> bool
    ensures { result ≡ goes_on_by rep flags }
{
    match rep {
        Rep::No => true,
        Rep::WhileEqual => flags.zf,
        Rep::WhileNot => !flags.zf,
    }
}

pub(crate) fn rep_cmps(w: Width, rep: Rep, cpu: &mut Cpu, mem: &Memory) -> Result<(), Fault>
    ensures done { let repeated = repeated_by (while_zero rep (cmps_effect w true)) in
        ended cpu.new mem.now result ≡ repeated cpu.old mem.now }
    ensures rip { cpu.new.rip ≡ cpu.old.rip }
{
    while cpu.regs[1] > 0 {
        if let Err(fault) = cmps(w, true, cpu, mem) {
            return Err(fault);
        }
        if !goes_on(rep, cpu.flags) {
            return Ok(());
        }
    }
    Ok(())
}

pub(crate) fn rep_scas(w: Width, rep: Rep, cpu: &mut Cpu, mem: &Memory) -> Result<(), Fault>
    ensures done { let repeated = repeated_by (while_zero rep (scas_effect w true)) in
        ended cpu.new mem.now result ≡ repeated cpu.old mem.now }
    ensures rip { cpu.new.rip ≡ cpu.old.rip }
{
    while cpu.regs[1] > 0 {
        if let Err(fault) = scas(w, true, cpu, mem) {
            return Err(fault);
        }
        if !goes_on(rep, cpu.flags) {
            return Ok(());
        }
    }
    Ok(())
}

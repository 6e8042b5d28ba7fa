//! Calls, returns and jumps by an operand.

ghost use Rattle.std.specs.Prelude.{◌≡◌, IsTrue};
ghost use Rattle.rz_exec.specs.Effect.{is_named_place};
ghost use Rattle.rz_exec.specs.Fault.{completion};
ghost use Rattle.rz_machine.specs.Action.{is_named_transfer, rip_after};
ghost use Rattle.rz_machine.specs.Calls.Transfers.{carried, fault_in};
ghost use Rattle.rz_machine.specs.declared.way.Transfer.TheVariants as transfers;

use crate::way::Transfer;
use rz_exec::memory::{read, write};
use rz_exec::operands::{address_of, value_of};
use rz_exec::registers::put_reg;
use rz_exec::{Cpu, Fault};
use rz_image::memory::Memory;
use rz_isa::Place;
use rz_num::Width;

// RSP.
const RSP: u8 = 4;

// CALL of an address, before `next`.
#[tactic(auto, unfolding(rz_exec::specs::Form::carry))]
#[inline(always)]
fn call(target: u64, next: u64, cpu: &mut Cpu, mem: &mut Memory) -> Result<(), Fault>
    ensures done { completion cpu.new mem.new (fault_in result)
        ≡ carried (transfers.Call target) next cpu.old mem.old }
    ensures rip { cpu.new.rip ≡ rip_after (fault_in result) (transfers.Call target) next cpu.old mem.old }
{
    let top = cpu.regs[4].wrapping_sub(8);
    write(mem, Width::W64, Some(top), next)?;
    put_reg(Width::W64, &mut cpu.regs, RSP, top);
    cpu.rip = target;
    Ok(())
}

// CALL of the address that an operand holds, before `next`.
#[tactic(auto, unfolding(rz_exec::specs::Form::carry))]
fn call_operand(src: Place, next: u64, cpu: &mut Cpu, mem: &mut Memory) -> Result<(), Fault>
    requires { IsTrue (is_named_place src) }
    ensures done { completion cpu.new mem.new (fault_in result)
        ≡ carried (transfers.CallInd src) next cpu.old mem.old }
    ensures rip { cpu.new.rip ≡ rip_after (fault_in result) (transfers.CallInd src) next cpu.old mem.old }
{
    let word = read(mem, Width::W64, address_of(&cpu.regs, &src))?;
    let target = value_of(Width::W64, &cpu.regs, &src, word);
    let top = cpu.regs[4].wrapping_sub(8);
    write(mem, Width::W64, Some(top), next)?;
    put_reg(Width::W64, &mut cpu.regs, RSP, top);
    cpu.rip = target;
    Ok(())
}

// JMP to the address that an operand holds.
#[tactic(auto, unfolding(rz_exec::specs::Form::carry))]
fn jump_operand(src: Place, next: u64, cpu: &mut Cpu, mem: &Memory) -> Result<(), Fault>
    requires { IsTrue (is_named_place src) }
    ensures done { completion cpu.new mem.now (fault_in result)
        ≡ carried (transfers.JmpInd src) next cpu.old mem.now }
    ensures rip { cpu.new.rip ≡ rip_after (fault_in result) (transfers.JmpInd src) next cpu.old mem.now }
{
    let _ = next;
    let word = read(mem, Width::W64, address_of(&cpu.regs, &src))?;
    cpu.rip = value_of(Width::W64, &cpu.regs, &src, word);
    Ok(())
}

// RET, which takes so many bytes more from the stack.
#[tactic(auto, unfolding(rz_exec::specs::Form::carry))]
#[inline(always)]
fn return_from(pop: u16, next: u64, cpu: &mut Cpu, mem: &Memory) -> Result<(), Fault>
    ensures done { completion cpu.new mem.now (fault_in result)
        ≡ carried (transfers.Ret pop) next cpu.old mem.now }
    ensures rip { cpu.new.rip ≡ rip_after (fault_in result) (transfers.Ret pop) next cpu.old mem.now }
{
    let _ = next;
    let top = cpu.regs[4];
    let target = read(mem, Width::W64, Some(top))?;
    let behind = top.wrapping_add(8).wrapping_add(pop as u64);
    put_reg(Width::W64, &mut cpu.regs, RSP, behind);
    cpu.rip = target;
    Ok(())
}

/// Carries out a transfer before the address `next`: registers and memory are those that its effect leaves, and RIP
/// is where it leads; a fault changes nothing. It takes no memory.
#[inline(always)]
pub(crate) fn transfer(how: Transfer, next: u64, cpu: &mut Cpu, mem: &mut Memory) -> Option<Fault>
    requires { IsTrue (is_named_transfer how) }
    ensures done { completion cpu.new mem.new result
        ≡ carried how next cpu.old mem.old }
    ensures rip { cpu.new.rip ≡ rip_after result how next cpu.old mem.old }
{
    match how {
        Transfer::Call { target } => call(target, next, cpu, mem).err(),
        Transfer::CallInd { src } => call_operand(src, next, cpu, mem).err(),
        Transfer::JmpInd { src } => jump_operand(src, next, cpu, mem).err(),
        Transfer::Ret { pop } => return_from(pop, next, cpu, mem).err(),
    }
}

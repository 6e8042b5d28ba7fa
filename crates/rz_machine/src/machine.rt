//! The machine: registers, memory and the outside, and its step.

ghost use Rattle.std.specs.Prelude.{◌≡◌};
ghost use Rattle.rz_exec.specs.Fault.{exception_of};
ghost use Rattle.rz_machine.specs.Action.{end_by};
ghost use Rattle.rz_machine.specs.State.{end_of};

use crate::cache::{DecodeCache, decode_at};
use crate::transfer::transfer;
use crate::way::{Halt, Way, find_way};
use rz_exec::{Cpu, Fault, exec_plain};
use rz_flags::{holds, to_word};
use rz_image::memory::Memory;
use rz_isa::{Decoded, Insn, InsnTable};
use rz_num::OutOfMemory;
use rz_sys::call::syscall;
use rz_sys::world::World;
use std::alloc::Global;
use std::marker::Model;

// Registers that a system call leaves changed (Intel SDM, volume 2, "SYSCALL").
const RCX: usize = 1;

const R11: usize = 11;

/// How a run ends. Registers and memory stay as they were before that step, but for the whole iterations of a repeat.
#[derive(Clone, Copy, PartialEq, Eq, Debug)]
pub enum End {
    /// By a system call, with this status.
    Exit(u8),
    /// At an access whose first byte that isn't allowed has this address.
    Memory(u64),
    /// At an address where the executable bytes end before an instruction does.
    Fetch(u64),
    /// At an address where no instruction is spelled.
    Unknown(u64),
    /// By a division.
    Divide,
    /// At an undefined instruction, at this address.
    Illegal(u64),
    Halted,
    Break,
    /// By a flags word that can't be taken.
    Popped,
}

/// The state of a run. Its heap is the region that its world says.
#[derive(Drop)]
pub struct Machine {
    pub cpu: Cpu,
    pub mem: Memory,
    pub world: World,
    pub end: Option<End>,
}

impl Model for Machine {
    ghost use Rattle.rz_machine.specs.MachineState.{MachineState};
    ghost use Rattle.rz_sys.specs.Heap.{HasHeap};

    ghost Value = { MachineState };

    ghost view = { λ s. record { cpu = s.cpu; mem = s.mem; world = s.world; end = s.end } };

    ghost invariant = { λ s. HasHeap s.mem s.world };
}

/// Whether some steps ended a run.
#[derive(Clone, Copy, PartialEq, Eq, Debug)]
pub enum Outcome {
    Running,
    Ended(End),
}

impl Machine {
    ghost use Rattle.std.specs.Prelude.{◌≡◌, IsTrue, OnOk, OnErr};
    ghost use Rattle.rz_isa.specs.Decoded.{decoded};
    ghost use Rattle.rz_exec.specs.Effect.{is_named};
    ghost use Rattle.rz_machine.specs.State.{step as step_of, act as act_of, perform as perform_of, perform_by, perform_action};
    ghost use Rattle.rz_machine.specs.Action.{Asks};
    ghost use Rattle.rz_machine.specs.Way.{way_of};
    ghost use Rattle.rz_machine.specs.declared.way.Way.TheVariants as ways;
    ghost use Rattle.rz_machine.specs.Ran.{outcome_of};
    ghost use Rattle.rz_machine.specs.Calls.Cache.{HasNames, Serves};

    /// One step, over a table of instructions. A machine that has ended stays.
    /// It refuses for want of memory alone, and then nothing is changed.
    #[tactic(auto, unfolding(crate::specs::State::step))]
    pub fn step<T: InsnTable>(&mut self, alloc: Global) -> Result<(), OutOfMemory>
        ensures ok { OnOk result (self.new ≡ step_of (decoded T.rows) self.old) }
        ensures err { OnErr result (self.new ≡ self.old) }
    {
        if self.end.is_some() {
            return Ok(());
        }
        let spelled = decode_at::<T>(&self.mem, self.cpu.rip);
        self.act(alloc, &spelled)
    }

    /// The same step, with a cache of what the code spells.
    #[tactic(auto, unfolding(crate::specs::State::step))]
    pub fn step_with<T: InsnTable>(
        &mut self,
        alloc: Global,
        cache: &mut DecodeCache,
    ) -> Result<(), OutOfMemory>
        requires { Serves (decoded T.rows) self.old.mem cache.old }
        ensures ok { OnOk result (self.new ≡ step_of (decoded T.rows) self.old) }
        ensures err { OnErr result (self.new ≡ self.old) }
        ensures serves { Serves (decoded T.rows) self.new.mem cache.new }
    {
        if self.end.is_some() {
            return Ok(());
        }
        if let Some(spelled) = cache.found::<T>(&self.mem, self.cpu.rip) {
            return self.act(alloc, spelled);
        }
        self.step_anew::<T>(alloc, cache)
    }

    // The same step, where the cache may not have what the code spells.
    #[cold]
    #[inline(never)]
    #[tactic(auto, unfolding(crate::specs::State::step))]
    fn step_anew<T: InsnTable>(
        &mut self,
        alloc: Global,
        cache: &mut DecodeCache,
    ) -> Result<(), OutOfMemory>
        requires { Serves (decoded T.rows) self.old.mem cache.old }
        ensures ok { OnOk result (self.new ≡ step_of (decoded T.rows) self.old) }
        ensures err { OnErr result (self.new ≡ self.old) }
        ensures serves { Serves (decoded T.rows) self.new.mem cache.new }
    {
        if self.end.is_some() {
            return Ok(());
        }
        let spelled = cache.decode::<T>(alloc, &self.mem, self.cpu.rip);
        self.act(alloc, &spelled)
    }

    /// Whether the run has ended, and how.
    pub fn outcome(&self) -> Outcome
        ensures { result ≡ outcome_of self.now.end }
    {
        match self.end {
            Some(end) => Outcome::Ended(end),
            None => Outcome::Running,
        }
    }

    // What the bytes at RIP spell.
    #[inline(always)]
    fn act(&mut self, alloc: Global, spelled: &Decoded) -> Result<(), OutOfMemory>
        requires { HasNames spelled.now }
        ensures ok { OnOk result (self.new ≡ act_of spelled.now self.old) }
        ensures err { OnErr result (self.new ≡ self.old) }
    {
        match spelled {
            Decoded::Insn { insn, len } => {
                let next = self.cpu.rip.wrapping_add(*len as u64);
                self.perform(alloc, insn, next)
            }
            Decoded::Short => {
                self.end = Some(End::Fetch(self.cpu.rip));
                Ok(())
            }
            Decoded::Unknown => {
                self.end = Some(End::Unknown(self.cpu.rip));
                Ok(())
            }
        }
    }

    // An instruction before `next`.
    #[tactic(auto, unfolding(rz_exec::specs::Form::carry))]
    #[inline(always)]
    fn perform(&mut self, alloc: Global, insn: &Insn, next: u64) -> Result<(), OutOfMemory>
        requires { IsTrue (is_named insn.now) }
        ensures ok { OnOk result (self.new ≡ perform_of insn.now next self.old) }
        ensures err { OnErr result (self.new ≡ self.old) }
    {
        match find_way(insn) {
            Way::Onward => self.pass(insn, next),
            Way::Jumps { target } => self.cpu.rip = target,
            Way::Branches { cond, target } => {
                self.cpu.rip = if holds(cond, self.cpu.flags) {
                    target
                } else {
                    next
                }
            }
            Way::BranchesOnRcx { target } => {
                self.cpu.rip = if self.cpu.regs[RCX] == 0 {
                    target
                } else {
                    next
                }
            }
            Way::Transfers { how } => {
                if let Some(fault) = transfer(how, next, &mut self.cpu, &mut self.mem) {
                    self.end = Some(end_by_fault(fault));
                }
            }
            Way::Calls => return self.call(alloc, next),
            Way::Halts { how } => self.end = Some(end_by_halt(how, self.cpu.rip)),
        }
        Ok(())
    }

    // A plain instruction before `next`.
    #[inline(always)]
    fn pass(&mut self, insn: &Insn, next: u64)
        requires named { IsTrue (is_named insn.now) }
        requires way { way_of insn.now ≡ ways.Onward }
        ensures { self.new ≡ perform_by ways.Onward insn.now next self.old }
    {
        match exec_plain(insn, &mut self.cpu, &mut self.mem) {
            None => self.cpu.rip = next,
            Some(fault) => self.end = Some(end_by_fault(fault)),
        }
    }

    // A system call before `next`.
    #[cold]
    #[inline(never)]
    fn call(&mut self, alloc: Global, next: u64) -> Result<(), OutOfMemory>
        ensures ok { OnOk result (self.new ≡ perform_action Asks next self.old) }
        ensures err { OnErr result (self.new ≡ self.old) }
    {
        match syscall(alloc, &mut self.cpu.regs, &mut self.mem, &mut self.world)? {
            Some(status) => self.end = Some(End::Exit(status)),
            None => {
                self.cpu.regs[RCX] = next;
                self.cpu.regs[R11] = to_word(self.cpu.flags);
                self.cpu.rip = next;
            }
        }
        Ok(())
    }
}

// The end by a fault.
fn end_by_fault(fault: Fault) -> End
    ensures { result ≡ end_of (exception_of fault) }
{
    match fault {
        Fault::Memory(at) => End::Memory(at),
        Fault::Divide => End::Divide,
        Fault::Popped => End::Popped,
    }
}

// The end by an instruction at an address that ends the run.
fn end_by_halt(how: Halt, here: u64) -> End
    ensures { result ≡ end_by how here }
{
    match how {
        Halt::Ud2 => End::Illegal(here),
        Halt::Hlt => End::Halted,
        Halt::Int3 => End::Break,
    }
}

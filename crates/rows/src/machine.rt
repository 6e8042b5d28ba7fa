//! How the machine runs a file on no input: its system calls, how it ends, and the registers that are not 0.

use crate::fault::Fault;
use crate::text::{add_digits, add_line};
use rz_elf::elf::Elf;
use rz_elf::fault::ElfError;
use rz_elf::read::read_elf;
use rz_machine::machine::{End, Machine, Outcome};
use rz_machine::start::start;
use rz_num::{Bytes, OutOfMemory};
use rz_sys::event::Event;
use rz_sys::input::Input;
use rz_table::Profile2;
use std::alloc::{AllocError, Global};

// The registers in the order of their numbers.
const REGISTERS: [&str; 16] = [
    "rax", "rcx", "rdx", "rbx", "rsp", "rbp", "rsi", "rdi", "r8", "r9", "r10", "r11", "r12", "r13",
    "r14", "r15",
];

/// Adds the run of a file, for at most `steps` steps. A file that is not accepted is refused.
pub fn add_run(alloc: Global, to: &mut Bytes, file: &[u8], steps: u64) -> Result<(), Fault> {
    let elf = accepted(alloc, file)?;
    add_run_of(alloc, to, &elf, steps)?;
    Ok(())
}

fn accepted(alloc: Global, file: &[u8]) -> Result<Elf, Fault> {
    match read_elf(alloc, Bytes::from_slice(alloc, file)?) {
        Ok(elf) => Ok(elf),
        Err(ElfError::Fault(_)) => Err(Fault::Line),
        Err(ElfError::OutOfMemory) => Err(Fault::OutOfMemory),
    }
}

fn add_run_of(alloc: Global, to: &mut Bytes, elf: &Elf, steps: u64) -> Result<(), OutOfMemory> {
    let mut machine = start(alloc, elf, &Input::empty(alloc))?;
    let outcome = machine.run::<Profile2>(alloc, steps)?;
    add_state(alloc, to, &machine, outcome)
}

fn add_state(
    alloc: Global,
    to: &mut Bytes,
    machine: &Machine,
    outcome: Outcome,
) -> Result<(), OutOfMemory> {
    for event in machine.world.events.as_slice() {
        add_event(alloc, to, event)?;
    }
    add_line(to, outcome_text(alloc, outcome)?.as_str())?;
    add_registers(alloc, to, &machine.cpu.regs)
}

// Adds a system call: its number, its arguments, its answer, and the bytes that it moved.
fn add_event(alloc: Global, to: &mut Bytes, event: &Event) -> Result<(), OutOfMemory> {
    let number = event.number;
    let [a, b, c] = event.args;
    let answer = event.answer;
    let text = format!(in alloc; "  sys {number} 0x{a:x} 0x{b:x} 0x{c:x} -> {answer}")?;
    to.push_all(text.as_bytes())?;
    if !event.bytes.as_slice().is_empty() {
        to.push(b' ')?;
        add_digits(alloc, to, event.bytes.as_slice())?;
    }
    to.push(b'\n')
}

fn add_registers(alloc: Global, to: &mut Bytes, regs: &[u64; 16]) -> Result<(), OutOfMemory> {
    to.push_all(b"  registers")?;
    for (name, value) in REGISTERS.iter().zip(regs) {
        if *value != 0 {
            to.push_all(format!(in alloc; " {name} 0x{value:x}")?.as_bytes())?;
        }
    }
    to.push(b'\n')
}

fn outcome_text(alloc: Global, outcome: Outcome) -> Result<String, AllocError> {
    match outcome {
        Outcome::Running => format!(in alloc; "running"),
        Outcome::Ended(End::Exit(status)) => format!(in alloc; "exit {status}"),
        Outcome::Ended(End::Memory(at)) => format!(in alloc; "memory 0x{at:x}"),
        Outcome::Ended(End::Fetch(at)) => format!(in alloc; "fetch 0x{at:x}"),
        Outcome::Ended(End::Unknown(at)) => format!(in alloc; "unknown 0x{at:x}"),
        Outcome::Ended(End::Illegal(at)) => format!(in alloc; "illegal 0x{at:x}"),
        Outcome::Ended(End::Divide) => format!(in alloc; "divide"),
        Outcome::Ended(End::Halted) => format!(in alloc; "halted"),
        Outcome::Ended(End::Break) => format!(in alloc; "break"),
        Outcome::Ended(End::Popped) => format!(in alloc; "popped"),
    }
}

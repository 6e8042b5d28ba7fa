//! The text of a run.

ghost use Rattle.std.specs.Prelude.{◌≡◌, [], ◌∷◌, ◌++◌, string_bytes, flat_map, IfOk, OnOk};
ghost use Rattle.rz_num.specs.Texts.{hex_text};
ghost use Rattle.rz_replay.specs.RunText.{call_line, call_text as text_of_call, moved_text, end_text as text_of_end, last_line as line_of_end, run_text_of};

use rz_elf::elf::Elf;
use rz_machine::machine::{End, Machine};
use rz_machine::stub::stub_word;
use rz_num::{Bytes, OutOfMemory};
use rz_sys::event::Event;
use std::alloc::{AllocError, Global};

/// The text of what a machine made of a file did so far: a line for each system call, in the order in which they were
/// made, and a last one for the end, for the stub at which it ended, or for none. It refuses for want of memory alone.
pub fn run_text(alloc: Global, machine: &Machine, elf: &Elf) -> Result<Bytes, OutOfMemory>
    ensures { IfOk result
        (λ text. text ≡ run_text_of elf.now machine.now) }
{
    let mut text = Bytes::new(alloc);
    for event in machine.world.events.as_slice() {
        push_call(alloc, &mut text, event)?;
    }
    let last = last_line(alloc, elf, machine)?;
    text.push_all(last.as_bytes())?;
    Ok(text)
}

// Appends the line of a system call.
fn push_call(alloc: Global, text: &mut Bytes, event: &Event) -> Result<(), OutOfMemory>
    ensures { OnOk result (text.new ≡ text.old ++ call_line event.now) }
{
    text.push_all(call_text(alloc, event)?.as_bytes())?;
    push_moved(alloc, text, event.bytes.as_slice())?;
    text.push(b'\n')
}

// A system call without what it moved.
fn call_text(alloc: Global, event: &Event) -> Result<String, AllocError>
    ensures { IfOk result (λ text. string_bytes text ≡ text_of_call event.now) }
{
    let number = event.number;
    let arguments = arguments_text(alloc, &event.args)?;
    let answer = event.answer.cast_signed();
    format!(in alloc; "sys {number}{arguments} -> {answer}")
}

// A space and each argument.
fn arguments_text(alloc: Global, args: &[u64; 3]) -> Result<String, AllocError>
    ensures { IfOk result (λ text. string_bytes text ≡ flat_map (λ a. 32 ∷ hex_text a) args.now) }
{
    let [first, second, third] = *args;
    format!(in alloc; " 0x{first:x} 0x{second:x} 0x{third:x}")
}

// Appends a space and the bytes that a system call moved, where there are any.
fn push_moved(alloc: Global, text: &mut Bytes, bytes: &[u8]) -> Result<(), OutOfMemory>
    ensures { OnOk result (text.new ≡ text.old ++ moved_text bytes.now) }
{
    if bytes.is_empty() {
        return Ok(());
    }
    text.push(b' ')?;
    text.push_all(hex::encode(alloc, bytes)?.as_bytes())
}

/// The last line of that text: how a run of a file ended, or the stub at which it ended, or that it runs on.
pub fn last_line(alloc: Global, elf: &Elf, machine: &Machine) -> Result<String, AllocError>
    ensures { IfOk result (λ line. string_bytes line ≡ line_of_end elf.now machine.now) }
{
    let Some(end) = machine.end else {
        return format!(in alloc; "running\n");
    };
    match stub_word(elf, machine) {
        Some(word) => format!(in alloc; "stub 0x{word:x}\n"),
        None => end_line(alloc, end),
    }
}

// The line of an end.
fn end_line(alloc: Global, end: End) -> Result<String, AllocError>
    ensures { IfOk result (λ line. string_bytes line ≡ text_of_end end ++ 10 ∷ []) }
{
    match end {
        End::Exit(status) => format!(in alloc; "exit {status}\n"),
        End::Memory(at) => format!(in alloc; "memory 0x{at:x}\n"),
        End::Fetch(at) => format!(in alloc; "fetch 0x{at:x}\n"),
        End::Unknown(at) => format!(in alloc; "unknown 0x{at:x}\n"),
        End::Divide => format!(in alloc; "divide\n"),
        End::Illegal(at) => format!(in alloc; "illegal 0x{at:x}\n"),
        End::Halted => format!(in alloc; "halted\n"),
        End::Break => format!(in alloc; "break\n"),
        End::Popped => format!(in alloc; "popped\n"),
    }
}

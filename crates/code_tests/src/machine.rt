// A program that opens a page of its heap, reads into it, writes what it read, and exits.

use crate::thin::program;
use rz_elf::elf::Elf;
use rz_machine::machine::{End, Machine, Outcome};
use rz_machine::start::start;
use rz_num::{Bytes, OutOfMemory};
use rz_sys::event::Event;
use rz_sys::input::Input;
use rz_table::Profile1;
use std::alloc::{AllocGlobal, Global};
use std::process::Abort;
use std::test::Fail;

const CODE: [u8; 68] = [
    0xb8, 12, 0, 0, 0, 0xbf, 0, 0x30, 0x40, 0, 0x0f, 0x05, 0xb8, 0, 0, 0, 0, 0xbf, 0, 0, 0, 0,
    0xbe, 0, 0x20, 0x40, 0, 0xba, 4, 0, 0, 0, 0x0f, 0x05, 0xb8, 1, 0, 0, 0, 0xbf, 1, 0, 0, 0, 0xbe,
    0, 0x20, 0x40, 0, 0xba, 3, 0, 0, 0, 0x0f, 0x05, 0xb8, 60, 0, 0, 0, 0xbf, 7, 0, 0, 0, 0x0f,
    0x05,
];

// The machine in which a run of the file begins, with "abc" to be read.
fn started(alloc: Global, elf: &Elf) -> Result<Machine, OutOfMemory> {
    let mut input = Input::empty(alloc);
    input.stdin = Bytes::from_slice(alloc, b"abc")?;
    start(alloc, elf, &input)
}

// Asserts that the calls of a run were these: the number of each, its answer, and the bytes that it moved.
fn assert_calls(rt: &impl Abort, events: &[Event], calls: &[(u64, u64, &[u8])]) {
    assert_eq!(rt; events.len(), calls.len());
    for (event, (number, answer, bytes)) in events.iter().zip(calls) {
        assert_eq!(rt; event.number, *number);
        assert_eq!(rt; event.answer, *answer);
        assert_eq!(rt; event.bytes.as_slice(), *bytes);
    }
}

fn run_to_the_exit(
    rt: &(impl Abort + AllocGlobal),
    machine: &mut Machine,
) -> Result<(), OutOfMemory> {
    let outcome = machine.run::<Profile1>(rt.alloc(), 100)?;
    assert_eq!(rt; outcome, Outcome::Ended(End::Exit(7)));
    let calls = [
        (12, 0x40_3000, b"".as_slice()),
        (0, 3, b"abc".as_slice()),
        (1, 3, b"abc".as_slice()),
        (60, 0, b"".as_slice()),
    ];
    assert_calls(rt, machine.world.events.as_slice(), &calls);
    Ok(())
}

#[test]
fn reads_into_the_heap(rt: HostRuntime) -> Result<(), Fail> {
    let elf = program(rt.alloc(), &CODE)?;
    let mut machine = started(rt.alloc(), &elf)?;
    run_to_the_exit(&rt, &mut machine)?;
    Ok(())
}

// What no clause says: that memory is found.

use crate::thin::program;
use rz_elf::elf::Elf;
use rz_machine::start::start;
use rz_num::{Bytes, OutOfMemory};
use rz_replay::compare::{Verdict, compare};
use rz_replay::run_text::run_text;
use rz_sys::input::Input;
use rz_table::Profile1;
use std::alloc::Global;
use std::test::Fail;

// HLT.
const CODE: [u8; 1] = [0xf4];

// The text of a run of the file that made no step.
fn first_text(alloc: Global, elf: &Elf) -> Result<Bytes, OutOfMemory> {
    let machine = start(alloc, elf, &Input::empty(alloc))?;
    run_text(alloc, &machine, elf)
}

#[test]
fn a_run_that_made_no_step(rt: HostRuntime) -> Result<(), Fail> {
    let elf = program(rt.alloc(), &CODE)?;
    let text = first_text(rt.alloc(), &elf)?;
    assert_eq!(rt; text.as_slice(), b"running\n".as_slice());
    Ok(())
}

// HLT ends both runs.
#[test]
fn a_file_does_what_it_does(rt: HostRuntime) -> Result<(), Fail> {
    let alloc = rt.alloc();
    let elf = program(alloc, &CODE)?;
    let verdict = compare::<Profile1>(alloc, &elf, &elf, 1, &Input::empty(alloc))?;
    assert_eq!(rt; verdict, Verdict::Same(0));
    Ok(())
}

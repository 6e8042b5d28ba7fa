// What no clause says: that a trace finds its memory.

use crate::thin::program;
use rz_aset::Record;
use rz_sys::input::Input;
use rz_table::Profile1;
use rz_trace::trace;
use std::alloc::Global;
use std::test::Fail;

// What is recorded of five steps of a jump to itself, at 0x401000.
fn trace_circle(alloc: Global, rec: &mut Record) -> Result<(), Fail> {
    let elf = program(alloc, &[0xe9, 0xfb, 0xff, 0xff, 0xff])?;
    trace::<Profile1>(alloc, &elf, &Input::empty(alloc), 5, rec)?;
    Ok(())
}

#[test]
fn traces_a_circle(rt: HostRuntime) -> Result<(), Fail> {
    let mut rec = Record::new(rt.alloc());
    trace_circle(rt.alloc(), &mut rec)?;
    assert_eq!(rt; rec.nodes.as_slice(), [0x40_1000].as_slice());
    assert_eq!(rt; rec.edges.as_slice(), [(0x40_1000, 0x40_1000)].as_slice());
    Ok(())
}

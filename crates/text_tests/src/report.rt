// What no clause says: that memory is found.

use rz_elf::read::read_elf;
use rz_num::Bytes;
use rz_report::pair::pair_report;
use std::test::Fail;

// A file with one load at 0x400000, of its headers and of one byte of code.
const FILE: [u8; 121] = [
    0x7f, 0x45, 0x4c, 0x46, 2, 1, 1, 0, 0, 0, 0, 0, 0, 0, 0, 0, 2, 0, 0x3e, 0, 1, 0, 0, 0, 0x78, 0,
    0x40, 0, 0, 0, 0, 0, 0x40, 0, 0, 0, 0, 0, 0, 0, 0, 0, 0, 0, 0, 0, 0, 0, 0, 0, 0, 0, 0x40, 0,
    0x38, 0, 1, 0, 0, 0, 0, 0, 0, 0, 1, 0, 0, 0, 5, 0, 0, 0, 0, 0, 0, 0, 0, 0, 0, 0, 0, 0, 0x40, 0,
    0, 0, 0, 0, 0, 0, 0x40, 0, 0, 0, 0, 0, 0x79, 0, 0, 0, 0, 0, 0, 0, 0x79, 0, 0, 0, 0, 0, 0, 0, 0,
    0x10, 0, 0, 0, 0, 0, 0, 0xf4,
];

#[test]
fn a_file_beside_itself(rt: HostRuntime) -> Result<(), Fail> {
    let alloc = rt.alloc();
    let elf = read_elf(alloc, Bytes::from_slice(alloc, &FILE)?)?;
    let text = pair_report(alloc, &elf, &elf)?;
    let expected = b"{\"executable\":[121,121],\"instructions\":0,\"length\":[121,121]}\n";
    assert_eq!(rt; text.as_slice(), expected.as_slice());
    Ok(())
}

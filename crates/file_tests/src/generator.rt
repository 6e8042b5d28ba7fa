// What no clause says: that memory is found, and the two functions of a worked file as it is built.

use rz_gen::gen_file;
use std::alloc::Global;

// Function 0 of two adds 1406932606.
const FIRST: [u8; 16] = [
    0xb8, 0x7e, 0x16, 0xdc, 0x53, 0x01, 0xc3, 0xf6, 0xc3, 0x01, 0x74, 0x03, 0x83, 0xc3, 0x07, 0xc3,
];

// Function 1 adds 654583775.
const LAST: [u8; 16] = [
    0xb8, 0xdf, 0x27, 0x04, 0x27, 0x01, 0xc3, 0xf6, 0xc3, 0x01, 0x74, 0x03, 0x83, 0xc3, 0x07, 0xc3,
];

#[test]
fn lengths_of_files(rt: HostRuntime) {
    for (n, len) in [(1, 4168), (2, 4192), (4000, 120_128)] {
        match gen_file(rt.alloc(), n) {
            Ok(file) => assert!(rt; file.as_slice().len() == len, "of {n}"),
            Err(_) => assert!(rt; false, "no memory"),
        }
    }
}

#[test]
fn two_functions(rt: HostRuntime) {
    match gen_file(rt.alloc(), 2) {
        Ok(file) => {
            let file = file.as_slice();
            assert!(rt; file.get(4144..4160) == Some(FIRST.as_slice()));
            assert!(rt; file.get(4160..4176) == Some(LAST.as_slice()));
        }
        Err(_) => assert!(rt; false, "no memory"),
    }
}

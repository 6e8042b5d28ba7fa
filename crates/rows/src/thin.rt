//! Thin files: one page of headers, and the code of one load at 0x401000 behind it.

use rz_num::{Bytes, OutOfMemory, put_u64};
use std::alloc::Global;

// The file header and one program header, with no sizes of the code.
const HEADERS: [u8; 120] = [
    0x7f, b'E', b'L', b'F', 2, 1, 1, 0, 0, 0, 0, 0, 0, 0, 0, 0, 2, 0, 62, 0, 1, 0, 0, 0, 0, 0x10,
    0x40, 0, 0, 0, 0, 0, 64, 0, 0, 0, 0, 0, 0, 0, 0, 0, 0, 0, 0, 0, 0, 0, 0, 0, 0, 0, 64, 0, 56, 0,
    1, 0, 0, 0, 0, 0, 0, 0, 1, 0, 0, 0, 5, 0, 0, 0, 0, 0x10, 0, 0, 0, 0, 0, 0, 0, 0x10, 0x40, 0, 0,
    0, 0, 0, 0, 0x10, 0x40, 0, 0, 0, 0, 0, 0, 0, 0, 0, 0, 0, 0, 0, 0, 0, 0, 0, 0, 0, 0, 0, 0, 0x10,
    0, 0, 0, 0, 0, 0,
];

// Where the headers have the code's sizes in the file and in memory.
const FILE_SIZE: usize = 96;

const MEMORY_SIZE: usize = 104;

// From the headers to the page's end.
const GAP: [u8; 3976] = [0; 3976];

/// The thin file of a code.
pub fn thin(alloc: Global, code: &[u8]) -> Result<Bytes, OutOfMemory> {
    let mut headers = HEADERS;
    put_u64(&mut headers, FILE_SIZE, code.len() as u64);
    put_u64(&mut headers, MEMORY_SIZE, code.len() as u64);
    let mut file = Bytes::from_slice(alloc, &headers)?;
    file.push_all(&GAP)?;
    file.push_all(code)?;
    Ok(file)
}

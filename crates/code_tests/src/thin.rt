// Thin files, each of one code.

use rz_elf::elf::Elf;
use rz_elf::fault::ElfError;
use rz_elf::read::read_elf;
use rz_num::{Bytes, put_u64};
use std::alloc::Global;

// The headers of a thin file, with no sizes.
const HEADERS: [u8; 120] = [
    0x7f, b'E', b'L', b'F', 2, 1, 1, 0, 0, 0, 0, 0, 0, 0, 0, 0, 2, 0, 62, 0, 1, 0, 0, 0, 0, 0x10,
    0x40, 0, 0, 0, 0, 0, 64, 0, 0, 0, 0, 0, 0, 0, 0, 0, 0, 0, 0, 0, 0, 0, 0, 0, 0, 0, 64, 0, 56, 0,
    1, 0, 0, 0, 0, 0, 0, 0, 1, 0, 0, 0, 5, 0, 0, 0, 0, 0x10, 0, 0, 0, 0, 0, 0, 0, 0x10, 0x40, 0, 0,
    0, 0, 0, 0, 0x10, 0x40, 0, 0, 0, 0, 0, 0, 0, 0, 0, 0, 0, 0, 0, 0, 0, 0, 0, 0, 0, 0, 0, 0, 0x10,
    0, 0, 0, 0, 0, 0,
];

// The thin file of a code, which stands at 0x401000.
pub fn program(alloc: Global, code: &[u8]) -> Result<Elf, ElfError> {
    let mut headers = HEADERS;
    put_u64(&mut headers, 96, code.len() as u64);
    put_u64(&mut headers, 104, code.len() as u64);
    let mut bytes = Bytes::from_slice(alloc, &headers)?;
    bytes.push_all(&[0; 3976])?;
    bytes.push_all(code)?;
    read_elf(alloc, bytes)
}

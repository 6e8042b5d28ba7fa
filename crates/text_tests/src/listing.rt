// What no clause says: that memory is found, and listings of a worked file as they are built.

use rz_elf::read::read_elf;
use rz_listing::listing;
use rz_num::{Bytes, OutOfMemory};
use rz_table::Profile2;
use std::alloc::Global;
use std::test::Fail;

// The headers of a file with one load of 37 bytes of code at 0x401000, at offset 4096.
const HEADERS: [u8; 120] = [
    0x7f, 0x45, 0x4c, 0x46, 2, 1, 1, 0, 0, 0, 0, 0, 0, 0, 0, 0, // e_ident
    2, 0, 0x3e, 0, 1, 0, 0, 0, // e_type, e_machine, e_version
    0, 0x10, 0x40, 0, 0, 0, 0, 0, // e_entry
    0x40, 0, 0, 0, 0, 0, 0, 0, // e_phoff
    0, 0, 0, 0, 0, 0, 0, 0, // e_shoff
    0, 0, 0, 0, 0x40, 0, 0x38, 0, 1, 0, // e_flags, e_ehsize, e_phentsize, e_phnum
    0, 0, 0, 0, 0, 0, // e_shentsize, e_shnum, e_shstrndx
    1, 0, 0, 0, 5, 0, 0, 0, // p_type, p_flags
    0, 0x10, 0, 0, 0, 0, 0, 0, // p_offset
    0, 0x10, 0x40, 0, 0, 0, 0, 0, // p_vaddr
    0, 0x10, 0x40, 0, 0, 0, 0, 0, // p_paddr
    37, 0, 0, 0, 0, 0, 0, 0, // p_filesz
    37, 0, 0, 0, 0, 0, 0, 0, // p_memsz
    0, 0x10, 0, 0, 0, 0, 0, 0, // p_align
];

// Two calls of the system, and three bytes that spell nothing: the first two begin a push, the last one nothing.
const CODE: [u8; 37] = [
    0xb8, 1, 0, 0, 0, 0xbf, 1, 0, 0, 0, 0xbe, 0x22, 0x10, 0x40, 0, 0xba, 3, 0, 0, 0, 0x0f, 0x05,
    0xbf, 0, 0, 0, 0, 0xb8, 0x3c, 0, 0, 0, 0x0f, 0x05, 0x68, 0x69, 0x06,
];

// A listing of the file.
fn listed(alloc: Global, at: u64, count: u32) -> Result<Option<Bytes>, OutOfMemory> {
    let mut file = Vec::from_slice(alloc, &HEADERS)?;
    file.resize(4096, 0)?;
    file.extend_from_slice(&CODE)?;
    match read_elf(alloc, Bytes::from_vec(file)) {
        Ok(elf) => Ok(Some(listing::<Profile2>(alloc, &elf, at, count)?)),
        Err(_) => Ok(None),
    }
}

#[test]
fn listings_of_a_file(rt: HostRuntime) -> Result<(), Fail> {
    for (at, count, text) in [
        (
            0x40_100a,
            3,
            "0x40100a be22104000 mov esi, 0x401022\n0x40100f ba03000000 mov edx, 0x3\n0x401014 0f05 syscall\n",
        ),
        (0x40_1020, 5, "0x401020 0f05 syscall\n0x401022 short\n"),
        (0x40_1024, 1, "0x401024 unknown\n"),
        (u64::MAX, 2, "0xffffffffffffffff short\n"),
        (0x40_1000, 0, ""),
    ] {
        match listed(rt.alloc(), at, count)? {
            Some(listing) => assert!(rt; listing.as_slice() == text.as_bytes(), "at {at:x}"),
            None => assert!(rt; false, "at {at:x}"),
        }
    }
    Ok(())
}

// What no clause says: that labelling succeeds, and what it adds byte for byte, by hand from the System V gABI, chapter 4,
// "Sections" and "String Table".

use crate::elfw::written_example;
use rz_elf::elf::Elf;
use rz_elf::read::read_elf;
use rz_elf::stamp::stamped;
use rz_label::label::{label, labelled_len, maps_header};
use rz_num::{Bytes, OutOfMemory};
use std::alloc::AllocGlobal;
use std::process::Abort;
use std::test::Fail;

// `e_shentsize`, `e_shnum` and `e_shstrndx`.
const COUNTS: [u8; 6] = [64, 0, 6, 0, 5, 0];

// What stands behind the 24,576 bytes of a written file: the names, up to a multiple of 8, and the section headers.
const ADDED: [u8; 456] = [
    0, 0x2e, 0x72, 0x61, 0x7a, 0x6f, 0x72, 0x2e, 0x73, 0x63, 0x72, 0x61, 0x74, 0x63, 0x68, // .razor.scratch
    0, 0x2e, 0x72, 0x61, 0x7a, 0x6f, 0x72, 0x2e, 0x74, 0x61, 0x62, 0x6c, 0x65, 0x73, // .razor.tables
    0, 0x2e, 0x72, 0x61, 0x7a, 0x6f, 0x72, 0x2e, 0x63, 0x6f, 0x64, 0x65, // .razor.code
    0, 0x2e, 0x72, 0x61, 0x7a, 0x6f, 0x72, 0x2e, 0x73, 0x74, 0x75, 0x62, 0x73, // .razor.stubs
    0, 0x2e, 0x73, 0x68, 0x73, 0x74, 0x72, 0x74, 0x61, 0x62, 0, // .shstrtab
    0, 0, 0, 0, 0, 0, 0, // up to a multiple of 8
    0, 0, 0, 0, 0, 0, 0, 0, 0, 0, 0, 0, 0, 0, 0, 0, 0, 0, 0, 0, 0, 0, 0, 0, 0, 0, 0, 0, 0, 0, 0, 0,
    0, 0, 0, 0, 0, 0, 0, 0, 0, 0, 0, 0, 0, 0, 0, 0, 0, 0, 0, 0, 0, 0, 0, 0, 0, 0, 0, 0, 0, 0, 0, 0,
    // scratch
    1, 0, 0, 0, 8, 0, 0, 0, 3, 0, 0, 0, 0, 0, 0, 0, // sh_name, sh_type, sh_flags
    0, 0xd0, 0x3f, 0, 0, 0, 0, 0, 0, 0, 0, 0, 0, 0, 0, 0, // sh_addr, sh_offset
    0, 0x10, 0, 0, 0, 0, 0, 0, 0, 0, 0, 0, 0, 0, 0, 0, // sh_size, sh_link, sh_info
    0, 0x10, 0, 0, 0, 0, 0, 0, 0, 0, 0, 0, 0, 0, 0, 0, // sh_addralign, sh_entsize
    // the tables
    16, 0, 0, 0, 1, 0, 0, 0, 2, 0, 0, 0, 0, 0, 0, 0, // sh_name, sh_type, sh_flags
    0, 0xe0, 0x3f, 0, 0, 0, 0, 0, 0, 0x30, 0, 0, 0, 0, 0, 0, // sh_addr, sh_offset
    0, 0x10, 0, 0, 0, 0, 0, 0, 0, 0, 0, 0, 0, 0, 0, 0, // sh_size, sh_link, sh_info
    0, 0x10, 0, 0, 0, 0, 0, 0, 0, 0, 0, 0, 0, 0, 0, 0, // sh_addralign, sh_entsize
    // the code
    30, 0, 0, 0, 1, 0, 0, 0, 6, 0, 0, 0, 0, 0, 0, 0, // sh_name, sh_type, sh_flags
    0, 0xf0, 0x3f, 0, 0, 0, 0, 0, 0, 0x40, 0, 0, 0, 0, 0, 0, // sh_addr, sh_offset
    0, 0x10, 0, 0, 0, 0, 0, 0, 0, 0, 0, 0, 0, 0, 0, 0, // sh_size, sh_link, sh_info
    0, 0x10, 0, 0, 0, 0, 0, 0, 0, 0, 0, 0, 0, 0, 0, 0, // sh_addralign, sh_entsize
    // the stubs
    42, 0, 0, 0, 1, 0, 0, 0, 6, 0, 0, 0, 0, 0, 0, 0, // sh_name, sh_type, sh_flags
    0, 0, 0x40, 0, 0, 0, 0, 0, 0, 0x50, 0, 0, 0, 0, 0, 0, // sh_addr, sh_offset
    0, 0x10, 0, 0, 0, 0, 0, 0, 0, 0, 0, 0, 0, 0, 0, 0, // sh_size, sh_link, sh_info
    0, 0x10, 0, 0, 0, 0, 0, 0, 0, 0, 0, 0, 0, 0, 0, 0, // sh_addralign, sh_entsize
    // the names
    55, 0, 0, 0, 3, 0, 0, 0, 0, 0, 0, 0, 0, 0, 0, 0, // sh_name, sh_type, sh_flags
    0, 0, 0, 0, 0, 0, 0, 0, 0, 0x60, 0, 0, 0, 0, 0, 0, // sh_addr, sh_offset
    65, 0, 0, 0, 0, 0, 0, 0, 0, 0, 0, 0, 0, 0, 0, 0, // sh_size, sh_link, sh_info
    1, 0, 0, 0, 0, 0, 0, 0, 0, 0, 0, 0, 0, 0, 0, 0, // sh_addralign, sh_entsize
];

fn labelled(rt: &(impl Abort + AllocGlobal), new: &Elf) -> Result<Bytes, OutOfMemory> {
    assert!(rt; stamped(new).is_some());
    assert!(rt; !maps_header(new));
    assert!(rt; labelled_len(new) <= 67_108_864);
    label(rt.alloc(), new)
}

#[test]
fn parts_have_sections(rt: HostRuntime) -> Result<(), Fail> {
    let new = read_elf(rt.alloc(), written_example(&rt)?)?;
    let file = labelled(&rt, &new)?;
    let bytes = file.as_slice();
    assert_eq!(rt; bytes.len(), 25_032);
    assert!(rt; bytes.ends_with(&ADDED));
    assert_eq!(rt;
        bytes.get(40..48),
        Some([0x48, 0x60, 0, 0, 0, 0, 0, 0].as_slice())
    );
    assert_eq!(rt; bytes.get(58..64), Some(COUNTS.as_slice()));
    Ok(())
}

#[test]
fn labels_may_be_added_again(rt: HostRuntime) -> Result<(), Fail> {
    let new = read_elf(rt.alloc(), written_example(&rt)?)?;
    let again = read_elf(rt.alloc(), labelled(&rt, &new)?)?;
    let file = labelled(&rt, &again)?;
    assert_eq!(rt; file.as_slice().len(), 25_488);
    Ok(())
}

#[test]
fn a_load_may_have_the_header(rt: HostRuntime) -> Result<(), Fail> {
    let mut file = written_example(&rt)?.into_vec();
    if let Some(size) = file.get_mut(96) {
        *size = 1;
    }
    let new = read_elf(rt.alloc(), Bytes::from_vec(file))?;
    assert!(rt; maps_header(&new));
    Ok(())
}

// What no clause says: that the calls succeed, and the headers of a written file byte for byte, by hand from the System V
// gABI, chapter 4, "ELF Header", and chapter 5, "Program Header".

ghost use Rattle.std.specs.Prelude.{◌≡◌, ◌≤◌, length, IfOk};
ghost use Rattle.rz_elf.specs.Room.{ArePages, extent_of as extent_of_file, parts_end, parts_size};

use rz_elf::elf::Elf;
use rz_elf::read::read_elf;
use rz_elf::room::Extent;
use rz_elfw::extent::extent_of;
use rz_elfw::parts::Parts;
use rz_elfw::write::write_elf;
use rz_num::{Bytes, OutOfMemory};
use std::alloc::{AllocGlobal, Global};
use std::process::Abort;
use std::test::Fail;

// The headers of a file with two bytes of code at 0x401000, at offset 4096.
const HEADERS: [u8; 344] = [
    0x7f, 0x45, 0x4c, 0x46, 2, 1, 1, 0, 0, 0, 0, 0, 0, 0, 0, 0, // e_ident
    2, 0, 0x3e, 0, 1, 0, 0, 0, // e_type, e_machine, e_version
    1, 0x10, 0x40, 0, 0, 0, 0, 0, // e_entry
    0x40, 0, 0, 0, 0, 0, 0, 0, // e_phoff
    0x99, 0, 0, 0, 0, 0, 0, 0, // e_shoff
    0, 0, 0, 0, 0x40, 0, 0x38, 0, 5, 0, // e_flags, e_ehsize, e_phentsize, e_phnum
    0x40, 0, 9, 0, 8, 0, // e_shentsize, e_shnum, e_shstrndx
    // the code, aligned to 2 MiB
    1, 0, 0, 0, 5, 0, 0, 0, // p_type, p_flags
    0, 0x10, 0, 0, 0, 0, 0, 0, // p_offset
    0, 0x10, 0x40, 0, 0, 0, 0, 0, // p_vaddr
    7, 0, 0, 0, 0, 0, 0, 0, // p_paddr
    2, 0, 0, 0, 0, 0, 0, 0, // p_filesz
    2, 0, 0, 0, 0, 0, 0, 0, // p_memsz
    0, 0, 0x20, 0, 0, 0, 0, 0, // p_align
    // how the stack is used
    0x51, 0xe5, 0x74, 0x64, 6, 0, 0, 0, // p_type, p_flags
    0x55, 0, 0, 0, 0, 0, 0, 0, // p_offset
    0, 0, 0, 0, 0, 0, 0, 0, // p_vaddr
    0, 0, 0, 0, 0, 0, 0, 0, // p_paddr
    0, 0, 0, 0, 0, 0, 0, 0, // p_filesz
    0, 0, 0, 0, 0, 0, 0, 0, // p_memsz
    0x10, 0, 0, 0, 0, 0, 0, 0, // p_align
    // data without bytes in the file, of no alignment
    1, 0, 0, 0, 6, 0, 0, 0, // p_type, p_flags
    0, 0, 0, 0, 0, 0, 0, 0, // p_offset
    0, 0x20, 0x40, 0, 0, 0, 0, 0, // p_vaddr
    0, 0x20, 0x40, 0, 0, 0, 0, 0, // p_paddr
    0, 0, 0, 0, 0, 0, 0, 0, // p_filesz
    0x10, 0, 0, 0, 0, 0, 0, 0, // p_memsz
    0, 0, 0, 0, 0, 0, 0, 0, // p_align
    // a note
    4, 0, 0, 0, 4, 0, 0, 0, // p_type, p_flags
    0x40, 0, 0, 0, 0, 0, 0, 0, // p_offset
    0, 3, 0, 0, 0, 0, 0, 0, // p_vaddr
    0, 3, 0, 0, 0, 0, 0, 0, // p_paddr
    8, 0, 0, 0, 0, 0, 0, 0, // p_filesz
    8, 0, 0, 0, 0, 0, 0, 0, // p_memsz
    4, 0, 0, 0, 0, 0, 0, 0, // p_align
    // a load without bytes in memory
    1, 0, 0, 0, 4, 0, 0, 0, // p_type, p_flags
    0, 0, 0, 0, 0, 0, 0, 0, // p_offset
    0, 0x30, 0x40, 0, 0, 0, 0, 0, // p_vaddr
    0, 0x30, 0x40, 0, 0, 0, 0, 0, // p_paddr
    0, 0, 0, 0, 0, 0, 0, 0, // p_filesz
    0, 0, 0, 0, 0, 0, 0, 0, // p_memsz
    0, 0x10, 0, 0, 0, 0, 0, 0, // p_align
];

// The headers of the file that is written for it.
const NEW_HEADERS: [u8; 456] = [
    0x7f, 0x45, 0x4c, 0x46, 2, 1, 1, 0, 0, // e_ident
    0x52, 0x5a, 0x53, 0x54, 0x55, 0x42, 0x31, // the stamp
    2, 0, 0x3e, 0, 1, 0, 0, 0, // e_type, e_machine, e_version
    4, 0xf0, 0x3f, 0, 0, 0, 0, 0, // e_entry
    0x40, 0, 0, 0, 0, 0, 0, 0, // e_phoff
    0, 0, 0, 0, 0, 0, 0, 0, // e_shoff
    0, 0, 0, 0, 0x40, 0, 0x38, 0, 7, 0, // e_flags, e_ehsize, e_phentsize, e_phnum
    0x40, 0, 0, 0, 0, 0, // e_shentsize, e_shnum, e_shstrndx
    // the scratch page
    1, 0, 0, 0, 6, 0, 0, 0, // p_type, p_flags
    0, 0, 0, 0, 0, 0, 0, 0, // p_offset
    0, 0xd0, 0x3f, 0, 0, 0, 0, 0, // p_vaddr
    0, 0xd0, 0x3f, 0, 0, 0, 0, 0, // p_paddr
    0, 0, 0, 0, 0, 0, 0, 0, // p_filesz
    0, 0x10, 0, 0, 0, 0, 0, 0, // p_memsz
    0, 0x10, 0, 0, 0, 0, 0, 0, // p_align
    // the tables
    1, 0, 0, 0, 4, 0, 0, 0, // p_type, p_flags
    0, 0x30, 0, 0, 0, 0, 0, 0, // p_offset
    0, 0xe0, 0x3f, 0, 0, 0, 0, 0, // p_vaddr
    0, 0xe0, 0x3f, 0, 0, 0, 0, 0, // p_paddr
    0, 0x10, 0, 0, 0, 0, 0, 0, // p_filesz
    0, 0x10, 0, 0, 0, 0, 0, 0, // p_memsz
    0, 0x10, 0, 0, 0, 0, 0, 0, // p_align
    // the code
    1, 0, 0, 0, 5, 0, 0, 0, // p_type, p_flags
    0, 0x40, 0, 0, 0, 0, 0, 0, // p_offset
    0, 0xf0, 0x3f, 0, 0, 0, 0, 0, // p_vaddr
    0, 0xf0, 0x3f, 0, 0, 0, 0, 0, // p_paddr
    0, 0x10, 0, 0, 0, 0, 0, 0, // p_filesz
    0, 0x10, 0, 0, 0, 0, 0, 0, // p_memsz
    0, 0x10, 0, 0, 0, 0, 0, 0, // p_align
    // the stubs
    1, 0, 0, 0, 5, 0, 0, 0, // p_type, p_flags
    0, 0x50, 0, 0, 0, 0, 0, 0, // p_offset
    0, 0, 0x40, 0, 0, 0, 0, 0, // p_vaddr
    0, 0, 0x40, 0, 0, 0, 0, 0, // p_paddr
    0, 0x10, 0, 0, 0, 0, 0, 0, // p_filesz
    0, 0x10, 0, 0, 0, 0, 0, 0, // p_memsz
    0, 0x10, 0, 0, 0, 0, 0, 0, // p_align
    // the original's code
    1, 0, 0, 0, 4, 0, 0, 0, // p_type, p_flags
    0, 0x20, 0, 0, 0, 0, 0, 0, // p_offset
    0, 0x10, 0x40, 0, 0, 0, 0, 0, // p_vaddr
    7, 0, 0, 0, 0, 0, 0, 0, // p_paddr
    2, 0, 0, 0, 0, 0, 0, 0, // p_filesz
    2, 0, 0, 0, 0, 0, 0, 0, // p_memsz
    0, 0x10, 0, 0, 0, 0, 0, 0, // p_align
    // how the stack is used
    0x51, 0xe5, 0x74, 0x64, 6, 0, 0, 0, // p_type, p_flags
    0x55, 0, 0, 0, 0, 0, 0, 0, // p_offset
    0, 0, 0, 0, 0, 0, 0, 0, // p_vaddr
    0, 0, 0, 0, 0, 0, 0, 0, // p_paddr
    0, 0, 0, 0, 0, 0, 0, 0, // p_filesz
    0, 0, 0, 0, 0, 0, 0, 0, // p_memsz
    0x10, 0, 0, 0, 0, 0, 0, 0, // p_align
    // the original's data
    1, 0, 0, 0, 6, 0, 0, 0, // p_type, p_flags
    0, 0x10, 0, 0, 0, 0, 0, 0, // p_offset
    0, 0x20, 0x40, 0, 0, 0, 0, 0, // p_vaddr
    0, 0x20, 0x40, 0, 0, 0, 0, 0, // p_paddr
    0, 0, 0, 0, 0, 0, 0, 0, // p_filesz
    0x10, 0, 0, 0, 0, 0, 0, 0, // p_memsz
    0, 0, 0, 0, 0, 0, 0, 0, // p_align
];

// The file with these headers, whose code is UD2.
fn file(alloc: Global) -> Result<Bytes, OutOfMemory> {
    let mut file = Vec::from_slice(alloc, &HEADERS)?;
    file.resize(4096, 0)?;
    file.extend_from_slice(&[0x0f, 0x0b])?;
    Ok(Bytes::from_vec(file))
}

// A page of a byte.
fn page(alloc: Global, byte: u8) -> Result<Bytes, OutOfMemory>
    ensures { IfOk result (λ bytes. length bytes ≡ 4096) }
{
    Ok(Bytes::from_vec(vec![in alloc; byte; 4096]?))
}

// Parts of a page each that end at an address.
fn parts_below(alloc: Global, end: u64) -> Result<Parts, OutOfMemory>
    requires { 16384 ≤ end }
    ensures pages { IfOk result ArePages }
    ensures end { IfOk result (λ parts. parts_end parts ≡ end) }
    ensures size { IfOk result (λ parts. parts_size parts ≡ 12288) }
{
    Ok(Parts {
        base: end - 16_384,
        tables: page(alloc, 1)?,
        code: page(alloc, 2)?,
        stubs: page(alloc, 3)?,
    })
}

// The written file of the example, with parts of a page each below its lowest load.
fn written(
    rt: &(impl Abort + AllocGlobal),
    elf: &Elf,
    extent: &Extent,
) -> Result<Bytes, OutOfMemory>
    requires { extent.now ≡ extent_of_file elf.now.bytes }
{
    assert!(rt; extent.no_room(12_288).is_none());
    assert!(rt; extent.floor >= 16_384);
    let parts = parts_below(rt.alloc(), extent.floor)?;
    write_elf(rt.alloc(), elf, &parts, parts.base + 8196)
}

/// The written file of the example.
pub fn written_example(rt: &(impl Abort + AllocGlobal)) -> Result<Bytes, Fail> {
    let elf = read_elf(rt.alloc(), file(rt.alloc())?)?;
    let extent = extent_of(&elf);
    Ok(written(rt, &elf, &extent)?)
}

#[test]
fn headers_stand_at_their_offsets(rt: HostRuntime) -> Result<(), Fail> {
    let elf = read_elf(rt.alloc(), file(rt.alloc())?)?;
    let extent = extent_of(&elf);
    let expected = Extent {
        floor: 0x40_1000,
        headers: 3,
        bytes: 4098,
        memory: 18,
    };
    assert_eq!(rt; extent, expected);
    let written = written(&rt, &elf, &extent)?;
    let file = written.as_slice();
    assert_eq!(rt; file.len(), 24_576);
    assert!(rt; file.starts_with(&NEW_HEADERS));
    Ok(())
}

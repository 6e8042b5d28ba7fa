// What no clause says: worked symbol tables, each by its change to one of a function `main`, what is listed of them, and that
// the calls succeed. The bytes are by hand from the System V gABI, chapter 4.

use rz_aset::Record;
use rz_elf::elf::Elf;
use rz_elf::read::read_elf;
use rz_num::{Bytes, OutOfMemory};
use rz_syms::{SymError, SymFault, Symbols, listing, read_symbols, resolve};
use std::alloc::Global;
use std::test::Fail;

// The headers of a file with one load of 34 bytes of code at 0x401000, at offset 120, and three section headers at 208.
const HEADERS: [u8; 120] = [
    0x7f, 0x45, 0x4c, 0x46, 2, 1, 1, 0, 0, 0, 0, 0, 0, 0, 0, 0, // e_ident
    2, 0, 0x3e, 0, 1, 0, 0, 0, // e_type, e_machine, e_version
    0, 0x10, 0x40, 0, 0, 0, 0, 0, // e_entry
    0x40, 0, 0, 0, 0, 0, 0, 0, // e_phoff
    208, 0, 0, 0, 0, 0, 0, 0, // e_shoff
    0, 0, 0, 0, 0x40, 0, 0x38, 0, 1, 0, // e_flags, e_ehsize, e_phentsize, e_phnum
    0x40, 0, 3, 0, 0, 0, // e_shentsize, e_shnum, e_shstrndx
    1, 0, 0, 0, 5, 0, 0, 0, // p_type, p_flags
    120, 0, 0, 0, 0, 0, 0, 0, // p_offset
    0, 0x10, 0x40, 0, 0, 0, 0, 0, // p_vaddr
    0, 0x10, 0x40, 0, 0, 0, 0, 0, // p_paddr
    34, 0, 0, 0, 0, 0, 0, 0, // p_filesz
    34, 0, 0, 0, 0, 0, 0, 0, // p_memsz
    1, 0, 0, 0, 0, 0, 0, 0, // p_align
];

// The strings behind the code: none, `main`, and two bytes up to a multiple of 8.
const STRINGS: [u8; 6] = *b"\0main\0";

// The symbol `main`.
const MAIN: [u8; 24] = [
    1, 0, 0, 0, 0x12, 0, 1, 0, // st_name, st_info, st_other, st_shndx
    0, 0x10, 0x40, 0, 0, 0, 0, 0, // st_value
    34, 0, 0, 0, 0, 0, 0, 0, // st_size
];

// The sections: none, the symbols, and the strings.
const SECTIONS: [u8; 192] = [
    0, 0, 0, 0, 0, 0, 0, 0, 0, 0, 0, 0, 0, 0, 0, 0, 0, 0, 0, 0, 0, 0, 0, 0, 0, 0, 0, 0, 0, 0, 0, 0,
    0, 0, 0, 0, 0, 0, 0, 0, 0, 0, 0, 0, 0, 0, 0, 0, 0, 0, 0, 0, 0, 0, 0, 0, 0, 0, 0, 0, 0, 0, 0, 0,
    0, 0, 0, 0, 2, 0, 0, 0, 0, 0, 0, 0, 0, 0, 0, 0, // sh_name, sh_type, sh_flags
    0, 0, 0, 0, 0, 0, 0, 0, 160, 0, 0, 0, 0, 0, 0, 0, // sh_addr, sh_offset
    48, 0, 0, 0, 0, 0, 0, 0, 2, 0, 0, 0, 0, 0, 0, 0, // sh_size, sh_link, sh_info
    8, 0, 0, 0, 0, 0, 0, 0, 24, 0, 0, 0, 0, 0, 0, 0, // sh_addralign, sh_entsize
    0, 0, 0, 0, 3, 0, 0, 0, 0, 0, 0, 0, 0, 0, 0, 0, // sh_name, sh_type, sh_flags
    0, 0, 0, 0, 0, 0, 0, 0, 154, 0, 0, 0, 0, 0, 0, 0, // sh_addr, sh_offset
    6, 0, 0, 0, 0, 0, 0, 0, 0, 0, 0, 0, 0, 0, 0, 0, // sh_size, sh_link, sh_info
    1, 0, 0, 0, 0, 0, 0, 0, 0, 0, 0, 0, 0, 0, 0, 0, // sh_addralign, sh_entsize
];

// Where the fields stand: `e_shoff`, `e_shentsize` and `e_shnum`; of the symbol `main` and of the sections.
const SECTIONS_AT: usize = 40;

const SECTION_SIZE: usize = 58;

const SECTION_COUNT: usize = 60;

const NAME: usize = 184;

const VALUE: usize = 192;

const SIZE: usize = 200;

const TABLE_OFFSET: usize = 296;

const TABLE_SIZE: usize = 304;

const TABLE_LINK: usize = 312;

const TABLE_ENTRY: usize = 328;

const STRINGS_TYPE: usize = 340;

const STRINGS_SIZE: usize = 368;

// The file with the symbol `main`.
fn file(alloc: Global) -> Result<Vec<u8>, OutOfMemory> {
    let mut file = Vec::from_slice(alloc, &HEADERS)?;
    file.resize(154, 0x90)?;
    file.extend_from_slice(&STRINGS)?;
    file.resize(184, 0)?;
    file.extend_from_slice(&MAIN)?;
    file.extend_from_slice(&SECTIONS)?;
    Ok(file)
}

// It with another byte at a place.
fn changed(alloc: Global, at: usize, byte: u8) -> Result<Bytes, OutOfMemory> {
    let mut file = file(alloc)?;
    if let Some(place) = file.get_mut(at) {
        *place = byte;
    }
    Ok(Bytes::from_vec(file))
}

fn symbols_of(alloc: Global, bytes: Bytes) -> Result<Symbols, SymError> {
    match read_elf(alloc, bytes) {
        Ok(elf) => symbols_of_elf(alloc, &elf),
        Err(_) => Err(SymError::OutOfMemory),
    }
}

fn symbols_of_elf(alloc: Global, elf: &Elf) -> Result<Symbols, SymError> {
    read_symbols(alloc, elf)
}

// The listing of three nodes.
fn listed(alloc: Global, symbols: &Symbols) -> Result<Bytes, OutOfMemory> {
    let mut kept = Record::new(alloc);
    kept.nodes.insert_all(&[0x40_1021, 0x40_1022, 0x40_1000])?;
    listing(alloc, symbols, &kept)
}

#[test]
fn faults_come_in_order(rt: HostRuntime) -> Result<(), Fail> {
    for (at, byte, fault) in [
        (SECTION_SIZE, 40, Some(SymFault::SectionSize)),
        (SECTIONS_AT, 209, Some(SymFault::SectionRange)),
        (SECTION_COUNT, 4, Some(SymFault::SectionRange)),
        (SECTION_COUNT, 0, None),
        (SECTION_COUNT, 2, Some(SymFault::StringLink)),
        (SECTION_COUNT, 1, None),
        (TABLE_ENTRY, 25, Some(SymFault::SymbolEntry)),
        (TABLE_SIZE, 47, Some(SymFault::SymbolEntry)),
        (TABLE_SIZE, 240, Some(SymFault::Name(6))),
        (TABLE_SIZE + 1, 8, Some(SymFault::SymbolEntry)),
        (TABLE_SIZE + 1, 6, Some(SymFault::SymbolRange)),
        (TABLE_OFFSET + 7, 0xff, Some(SymFault::SymbolRange)),
        (TABLE_LINK, 3, Some(SymFault::StringLink)),
        (TABLE_LINK, 1, Some(SymFault::StringLink)),
        (STRINGS_TYPE, 2, Some(SymFault::StringLink)),
        (STRINGS_SIZE, 247, Some(SymFault::StringRange)),
        (STRINGS_SIZE, 5, Some(SymFault::Name(1))),
        (STRINGS_SIZE, 0, Some(SymFault::Name(0))),
        (NAME, 6, Some(SymFault::Name(1))),
        (NAME, 5, None),
    ] {
        let found = symbols_of(rt.alloc(), changed(rt.alloc(), at, byte)?).err();
        assert_eq!(rt; found, fault.map(|fault| SymError::Fault(fault)), "{at}");
    }
    Ok(())
}

#[test]
fn lists_the_nodes_of_a_function(rt: HostRuntime) -> Result<(), Fail> {
    for (at, byte, text) in [
        (NAME, 1, b"main 0x401000 0x401022 2\noutside 1\n".as_slice()),
        (NAME, 2, b"ain 0x401000 0x401022 2\noutside 1\n"),
        (SIZE, 33, b"main 0x401000 0x401021 1\noutside 2\n"),
        (SIZE, 35, b"outside 3\n"),
        (SIZE, 0, b"outside 3\n"),
        (VALUE, 1, b"outside 3\n"),
        (NAME + 4, 0x11, b"outside 3\n"),
        (NAME + 6, 0, b"outside 3\n"),
    ] {
        let symbols = symbols_of(rt.alloc(), changed(rt.alloc(), at, byte)?)?;
        let listing = listed(rt.alloc(), &symbols)?;
        assert_eq!(rt; listing.as_slice(), text, "{at}");
    }
    Ok(())
}

#[test]
fn names_stand_for_ranges(rt: HostRuntime) -> Result<(), Fail> {
    let symbols = symbols_of(rt.alloc(), Bytes::from_vec(file(rt.alloc())?))?;
    for (text, wanted) in [
        (
            b"fs main io".as_slice(),
            b"fn 0x401000 0x401022 io".as_slice(),
        ),
        (b"fs none io\n", b"bad\n"),
        (b"# fs\nfs main\n\nfs", b"# fs\nbad\n\nbad"),
        (b"fs  main io\nfs main io \nfs main i\x7f", b"bad\nbad\nbad"),
        (
            b"fn 0x1 0x2 io\nfsx main io\n fs main io",
            b"fn 0x1 0x2 io\nfsx main io\n fs main io",
        ),
        (b"", b""),
    ] {
        let text = Bytes::from_slice(rt.alloc(), text)?;
        let found = resolve(rt.alloc(), &text, &symbols)?;
        assert_eq!(rt; found.as_slice(), wanted);
    }
    Ok(())
}

// Section headers and the string table of their names (System V gABI, chapter 4, "Sections" and "String Table").

ghost use Rattle.std.specs.Prelude.{◌≡◌, ◌++◌, flat_map, OnOk};
ghost use Rattle.rz_label.specs.Labelled.{label_sections, load_section, names_section, no_section, part_sections, section_bytes};

use rz_elf::elf::Load;
use rz_num::{OutOfMemory, push_u32, push_u64};

/// The string table of the names: a zero, and each name with a zero behind it.
pub const NAMES: [u8; 65] =
    *b"\0.razor.scratch\0.razor.tables\0.razor.code\0.razor.stubs\0.shstrtab\0";

/// The bytes of a section header.
pub const SECTION_SIZE: usize = 64;

/// How many sections there are, with the one of number 0, which is none.
pub const COUNT: usize = 6;

/// The number of the section of the names.
pub const NAMES_NUMBER: u16 = 5;

// SHT_PROGBITS, SHT_STRTAB and SHT_NOBITS.
const BITS: u32 = 1;

const STRINGS: u32 = 3;

const NO_BITS: u32 = 8;

// SHF_WRITE, SHF_ALLOC and SHF_EXECINSTR.
const WRITE: u64 = 1;

const ALLOC: u64 = 2;

const EXECUTE: u64 = 4;

// The bytes of a page.
const PAGE: u64 = 4096;

/// What a section header says: where its name begins in the string table in bytes, `sh_type`, `sh_flags`, the address, the
/// offset in the file, the size and the alignment in bytes. Its other fields are 0.
#[derive(Clone, Copy)]
pub struct Section {
    pub name: u32,
    pub kind: u32,
    pub flags: u64,
    pub at: u64,
    pub offset: u64,
    pub size: u64,
    pub align: u64,
}

impl Section {
    // Appends the bytes of the section header.
    fn push(&self, out: &mut Vec<u8>) -> Result<(), OutOfMemory>
        ensures { OnOk result (out.new.items ≡ out.old.items ++ section_bytes self.now) }
    {
        push_u32(out, self.name)?;
        push_u32(out, self.kind)?;
        push_u64(out, self.flags)?;
        push_u64(out, self.at)?;
        push_u64(out, self.offset)?;
        push_u64(out, self.size)?;
        push_u32(out, 0)?;
        push_u32(out, 0)?;
        push_u64(out, self.align)?;
        push_u64(out, 0)?;
        Ok(())
    }
}

/// Appends the section headers of a file whose first four loads are the added ones, and of the names at an offset.
pub fn push_sections(out: &mut Vec<u8>, loads: &[Load], names_at: u64) -> Result<(), OutOfMemory>
    ensures { let headers = flat_map section_bytes (label_sections loads.now names_at) in
        OnOk result (out.new.items ≡ out.old.items ++ headers) }
{
    no_section().push(out)?;
    push_parts(out, loads)?;
    names_section(names_at).push(out)?;
    Ok(())
}

// Appends the section headers of the added loads.
fn push_parts(out: &mut Vec<u8>, loads: &[Load]) -> Result<(), OutOfMemory>
    ensures { let headers = flat_map section_bytes (part_sections loads.now) in
        OnOk result (out.new.items ≡ out.old.items ++ headers) }
{
    let [scratch, tables, code, stubs, ..] = loads else {
        return Ok(());
    };
    load_section(1, NO_BITS, WRITE | ALLOC, scratch).push(out)?;
    load_section(16, BITS, ALLOC, tables).push(out)?;
    load_section(30, BITS, ALLOC | EXECUTE, code).push(out)?;
    load_section(42, BITS, ALLOC | EXECUTE, stubs).push(out)?;
    Ok(())
}

// The section of a load, whose name begins at a place of the string table.
fn load_section(name: u32, kind: u32, flags: u64, load: &Load) -> Section
    ensures { result ≡ load_section name kind flags load.now }
{
    Section {
        name,
        kind,
        flags,
        at: load.at,
        offset: load.file_at,
        size: load.size,
        align: PAGE,
    }
}

// The section of the names at an offset.
fn names_section(at: u64) -> Section
    ensures { result ≡ names_section at }
{
    Section {
        name: 55,
        kind: STRINGS,
        flags: 0,
        at: 0,
        offset: at,
        size: NAMES.len() as u64,
        align: 1,
    }
}

// The section of number 0.
fn no_section() -> Section
    ensures { result ≡ no_section }
{
    Section {
        name: 0,
        kind: 0,
        flags: 0,
        at: 0,
        offset: 0,
        size: 0,
        align: 0,
    }
}

// Section headers (System V gABI, chapter 4, "ELF Header" and "Sections").

ghost use Rattle.std.specs.Prelude.{◌≡◌, ◌+◌, ◌*◌, ◌≤◌, length};
ghost use Rattle.rz_syms.specs.Sections.{section_table_of, section_of, leaves, table_end as end_of_table};

use rz_num::{get_u16, get_u32, get_u64};

/// The bytes of a section header.
pub const SECTION_SIZE: usize = 64;

/// `sh_type` of a symbol table: SHT_SYMTAB.
pub const SYMBOLS: u32 = 2;

/// `sh_type` of a string table: SHT_STRTAB.
pub const STRINGS: u32 = 3;

/// What a file header says of the section headers.
#[derive(Clone, Copy)]
pub struct SectionTable {
    /// Where they begin in the file, in bytes.
    pub at: u64,
    pub entry_size: u16,
    /// How many there are.
    pub count: u16,
}

impl SectionTable {
    /// That of a file.
    pub fn read(file: &[u8]) -> SectionTable
        requires { 64 ≤ length file.now }
        ensures { result ≡ section_table_of file.now }
    {
        SectionTable {
            at: get_u64(file, 40),
            entry_size: get_u16(file, 58),
            count: get_u16(file, 60),
        }
    }

    /// Where the section headers end in the file, in bytes.
    pub fn end(&self) -> u128
        ensures { result ≡ end_of_table self.now }
    {
        u128::from(self.at) + SECTION_SIZE as u128 * u128::from(self.count)
    }
}

/// A section header: `sh_type`, the offset and the size in the file in bytes, `sh_link`, and `sh_entsize` in bytes.
#[derive(Clone, Copy)]
pub struct Section {
    pub kind: u32,
    pub offset: u64,
    pub size: u64,
    pub link: u32,
    pub entry_size: u64,
}

impl Section {
    /// The section header whose bytes come first.
    pub fn read(bytes: &[u8]) -> Section
        requires { 64 ≤ length bytes.now }
        ensures { result ≡ section_of bytes.now }
    {
        Section {
            kind: get_u32(bytes, 4),
            offset: get_u64(bytes, 24),
            size: get_u64(bytes, 32),
            link: get_u32(bytes, 40),
            entry_size: get_u64(bytes, 56),
        }
    }

    /// Whether the bytes of the section go past a file of `len` bytes.
    pub fn leaves(&self, len: u64) -> bool
        ensures { result ≡ leaves len self.now }
    {
        u128::from(self.offset) + u128::from(self.size) > u128::from(len)
    }
}

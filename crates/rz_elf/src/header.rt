// The file header (System V gABI, chapter 4, "ELF Header").

ghost use Rattle.std.specs.Prelude.{◌≡◌, ◌≤◌, length};
ghost use Rattle.rz_elf.specs.Elf.{file_header};

use rz_num::{get_u16, get_u32, get_u64};

/// The fields of the file header that are read.
#[derive(Clone, Copy)]
pub struct FileHeader {
    pub file_type: u16,
    pub machine: u16,
    pub version: u32,
    pub entry: u64,
    /// Where the program headers begin in the file, in bytes.
    pub table_at: u64,
    pub header_size: u16,
    pub entry_size: u16,
    /// How many program headers there are.
    pub count: u16,
}

/// The bytes of a file header.
pub const HEADER_SIZE: usize = 64;

/// The file header of a file.
pub fn read_header(file: &[u8]) -> FileHeader
    requires { 64 ≤ length file.now }
    ensures { result ≡ file_header file.now }
{
    FileHeader {
        file_type: get_u16(file, 16),
        machine: get_u16(file, 18),
        version: get_u32(file, 20),
        entry: get_u64(file, 24),
        table_at: get_u64(file, 32),
        header_size: get_u16(file, 52),
        entry_size: get_u16(file, 54),
        count: get_u16(file, 56),
    }
}

// Entries of symbol tables (System V gABI, chapter 4, "Symbol Table").

ghost use Rattle.std.specs.Prelude.{◌≡◌, ◌≤◌, length};
ghost use Rattle.rz_syms.specs.Symbols.{symbol_of, is_defined_function};

use rz_num::{get_u16, get_u32, get_u64};

/// The bytes of a symbol.
pub const SYMBOL_SIZE: usize = 24;

// STT_FUNC.
const FUNCTION: u8 = 2;

/// A symbol: where its name begins in the string table in bytes, `st_info`, the number of its section, its value, and
/// its size in bytes.
#[derive(Clone, Copy)]
pub struct Symbol {
    pub name: u32,
    pub info: u8,
    pub section: u16,
    pub value: u64,
    pub size: u64,
}

impl Symbol {
    /// The symbol whose bytes come first.
    pub fn read(bytes: &[u8]) -> Symbol
        requires { 24 ≤ length bytes.now }
        ensures { result ≡ symbol_of bytes.now }
    {
        Symbol {
            name: get_u32(bytes, 0),
            info: bytes[4],
            section: get_u16(bytes, 6),
            value: get_u64(bytes, 8),
            size: get_u64(bytes, 16),
        }
    }

    /// Whether it is a function that the file defines and that has a size.
    pub fn is_defined_function(&self) -> bool
        ensures { result ≡ is_defined_function self.now }
    {
        self.info % 16 == FUNCTION && self.section != 0 && self.size != 0
    }
}

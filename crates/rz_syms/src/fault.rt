// Why a symbol table isn't read.

ghost use Rattle.std.specs.Prelude.{Some};

use rz_num::OutOfMemory;
use std::{error, fmt};
use thiserror::Error;

/// Why the symbol table of a file isn't read, in the order in which it is tried.
#[derive(Clone, Copy, PartialEq, Eq, Debug)]
pub enum SymFault {
    /// There are sections, and their headers don't have 64 bytes.
    SectionSize,
    /// The section headers go past the file.
    SectionRange,
    /// The symbols don't have 24 bytes, or the table isn't made of whole ones.
    SymbolEntry,
    /// The symbol table goes past the file.
    SymbolRange,
    /// The symbol table is linked to no section, or to one that isn't a string table.
    StringLink,
    /// The string table goes past the file.
    StringRange,
    /// The first symbol, numbered from 0, whose name has no end in the string table.
    Name(u64),
}

impl fmt::Display for SymFault {
    ghost use Rattle.rz_syms.specs.Texts.{fault_text};

    ghost output = { λ fault. Some (fault_text fault) };

    fn fmt<W: fmt::Write>(&self, f: &mut fmt::Formatter<W>) -> fmt::Result {
        match *self {
            SymFault::SectionSize => write!(f, "SectionSize"),
            SymFault::SectionRange => write!(f, "SectionRange"),
            SymFault::SymbolEntry => write!(f, "SymbolEntry"),
            SymFault::SymbolRange => write!(f, "SymbolRange"),
            SymFault::StringLink => write!(f, "StringLink"),
            SymFault::StringRange => write!(f, "StringRange"),
            SymFault::Name(number) => write!(f, "Name {number}"),
        }
    }
}

impl error::Error for SymFault {}

/// Why symbols aren't read.
#[derive(Clone, Copy, PartialEq, Eq, Debug, Error)]
pub enum SymError {
    #[error("{0}")]
    Fault(SymFault),
    #[error("out of memory")]
    OutOfMemory,
}

impl From<OutOfMemory> for SymError {
    ghost use Rattle.std.specs.Prelude.{◌≡◌};
    ghost use Rattle.rz_syms.specs.declared.fault.SymError.TheVariants as error;

    ghost from_gives = { λ _ e. e ≡ error.OutOfMemory };

    fn from(_: OutOfMemory) -> SymError {
        SymError::OutOfMemory
    }
}

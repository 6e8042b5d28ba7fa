//! An accepted file.

use rz_image::perm::Perm;
use rz_num::Bytes;
use std::marker::Model;

/// A segment that is loaded: the address and the size in memory, the offset and the size in the file, in bytes.
#[derive(Clone, Copy, PartialEq, Eq)]
pub struct Load {
    pub at: u64,
    pub size: u64,
    pub file_at: u64,
    pub file_size: u64,
    pub align: u64,
    pub perm: Perm,
    /// The number of its program header, from 0.
    pub index: u32,
}

/// The loads of a file, in ascending order.
#[derive(Drop)]
pub struct Loads {
    items: Vec<Load>,
}

impl Model for Loads {
    ghost use Rattle.std.specs.Prelude.{List};
    ghost use Rattle.rz_elf.specs.declared.elf.Load.{Load};

    ghost Value = { List Load };

    ghost view = { λ l. l.items.items };
}

impl Loads {
    ghost use Rattle.std.specs.Prelude.{◌≡◌};

    /// The loads of a vector, in its own memory.
    pub fn from_vec(items: Vec<Load>) -> Loads
        ensures { result ≡ items.items }
    {
        Loads { items }
    }

    /// The loads as a slice.
    pub fn as_slice(&self) -> &[Load]
        ensures { result.now ≡ self.now }
    {
        self.items.as_slice()
    }
}

/// An accepted file and what is loaded of it. Its loads, entry and first break are those of its bytes.
#[derive(Drop)]
pub struct Elf {
    pub bytes: Bytes,
    pub loads: Loads,
    pub entry: u64,
    /// The address where the heap begins: the end of the highest load, rounded up to a page.
    pub first_break: u64,
}

impl Model for Elf {
    ghost use Rattle.rz_elf.specs.Loaded.{ElfFile, IsRead};

    ghost Value = { ElfFile };

    ghost view = { λ e. record { bytes = e.bytes; loads = e.loads; entry = e.entry; first_break = e.first_break } };

    ghost invariant = { λ e. IsRead (record { bytes = e.bytes; loads = e.loads; entry = e.entry; first_break = e.first_break }) };
}

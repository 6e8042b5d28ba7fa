//! Program headers (System V gABI, chapter 5, "Program Header").

ghost use Rattle.std.specs.Prelude.{◌≡◌, ◌+◌, ◌++◌, ◌≤◌, length, OnOk};
ghost use Rattle.rz_elf.specs.Elf.{segment_of, is_load, is_stack, is_dynamic, is_stack_code, has_other_flags, is_writable_code, is_larger_in_file, leaves_file, is_misaligned, is_far, isnt_above, last_page, shares_page, has_entry};
ghost use Rattle.rz_elf.specs.WrittenFile.{segment_bytes};

use crate::format::{DYNAMIC, INTERPRETER, LOAD, STACK};
use rz_image::perm::Perm;
use rz_num::{OutOfMemory, get_u32, get_u64, push_u32, push_u64};

// The addresses of loads begin at the first, and end below the second.
const LOWEST: u64 = 0x1_0000;

const HIGHEST: u128 = 0x7000_0000;

const PAGE: u128 = 4096;

/// The bytes of a program header.
pub const SEGMENT_SIZE: usize = 56;

/// A program header: `p_type`, `p_flags`, the offset in the file, the addresses, the sizes in the file and in memory
/// in bytes, and the alignment in bytes.
#[derive(Clone, Copy, PartialEq, Eq)]
pub struct Segment {
    pub kind: u32,
    pub flags: u32,
    pub offset: u64,
    pub vaddr: u64,
    pub paddr: u64,
    pub filesz: u64,
    pub memsz: u64,
    pub align: u64,
}

impl Segment {
    /// The program header whose bytes come first.
    pub fn read(bytes: &[u8]) -> Segment
        requires { 56 ≤ length bytes.now }
        ensures { result ≡ segment_of bytes.now }
    {
        Segment {
            kind: get_u32(bytes, 0),
            flags: get_u32(bytes, 4),
            offset: get_u64(bytes, 8),
            vaddr: get_u64(bytes, 16),
            paddr: get_u64(bytes, 24),
            filesz: get_u64(bytes, 32),
            memsz: get_u64(bytes, 40),
            align: get_u64(bytes, 48),
        }
    }

    /// Appends the bytes of the program header. It refuses for want of memory alone.
    pub fn push(&self, out: &mut Vec<u8>) -> Result<(), OutOfMemory>
        ensures { OnOk result (out.new.items ≡ out.old.items ++ segment_bytes self.now) }
    {
        push_u32(out, self.kind)?;
        push_u32(out, self.flags)?;
        push_u64(out, self.offset)?;
        push_u64(out, self.vaddr)?;
        push_u64(out, self.paddr)?;
        push_u64(out, self.filesz)?;
        push_u64(out, self.memsz)?;
        push_u64(out, self.align)?;
        Ok(())
    }

    /// Whether it is loaded.
    pub fn is_load(&self) -> bool
        ensures { result ≡ is_load self.now }
    {
        self.kind == LOAD && self.memsz != 0
    }

    /// Whether it says how the stack may be used.
    pub fn is_stack(&self) -> bool
        ensures { result ≡ is_stack self.now }
    {
        self.kind == STACK
    }

    /// Whether it asks for a dynamic linker.
    pub fn is_dynamic(&self) -> bool
        ensures { result ≡ is_dynamic self.now }
    {
        self.kind == DYNAMIC || self.kind == INTERPRETER
    }

    /// Whether it asks for a stack that may be executed.
    pub fn is_stack_code(&self) -> bool
        ensures { result ≡ is_stack_code self.now }
    {
        self.is_stack() && self.flags % 2 == 1
    }

    /// Whether it is a load that can't be read, or has flags that no permission has.
    pub fn has_other_flags(&self) -> bool
        ensures { result ≡ has_other_flags self.now }
    {
        self.is_load() && !(4 <= self.flags && self.flags <= 7)
    }

    /// Whether it is a load that may be both written and executed.
    pub fn is_writable_code(&self) -> bool
        ensures { result ≡ is_writable_code self.now }
    {
        self.is_load() && self.flags == 7
    }

    /// Whether it is a load with more bytes in the file than in memory.
    pub fn is_larger_in_file(&self) -> bool
        ensures { result ≡ is_larger_in_file self.now }
    {
        self.is_load() && self.filesz > self.memsz
    }

    /// Whether it is a load whose bytes end past a file of `len` bytes.
    pub fn leaves_file(&self, len: u64) -> bool
        ensures { result ≡ leaves_file len self.now }
    {
        self.is_load() && u128::from(self.offset) + u128::from(self.filesz) > u128::from(len)
    }

    /// Whether it is a load whose alignment is no power of two, or whose address and offset differ modulo it.
    pub fn is_misaligned(&self) -> bool
        ensures { result ≡ is_misaligned self.now }
    {
        self.is_load()
            && self.align > 1
            && (!self.align.is_power_of_two()
                || self.vaddr % self.align != self.offset % self.align)
    }

    /// Whether it is a load with a byte outside the addresses of loads.
    pub fn is_far(&self) -> bool
        ensures { result ≡ is_far self.now }
    {
        self.is_load() && !(LOWEST <= self.vaddr && self.end() <= HIGHEST)
    }

    /// Whether its address isn't above that of another.
    pub fn isnt_above(&self, before: &Segment) -> bool
        ensures { result ≡ isnt_above before.now self.now }
    {
        self.vaddr <= before.vaddr
    }

    /// Whether it has a byte in a page where another has one.
    pub fn shares_page(&self, before: &Segment) -> bool
        ensures { result ≡ shares_page before.now self.now }
    {
        u128::from(self.vaddr) / PAGE <= before.last_page()
            && u128::from(before.vaddr) / PAGE <= self.last_page()
    }

    /// Whether it may be read and executed alone, and has an address.
    pub fn has_entry(&self, entry: u64) -> bool
        ensures { result ≡ has_entry entry self.now }
    {
        self.flags == 5 && self.vaddr <= entry && u128::from(entry) < self.end()
    }

    /// The address behind its last byte in memory.
    pub fn end(&self) -> u128
        ensures { result ≡ self.now.vaddr + self.now.memsz }
    {
        u128::from(self.vaddr) + u128::from(self.memsz)
    }

    // The page of its last byte in memory.
    fn last_page(&self) -> u128
        ensures { result ≡ last_page self.now }
    {
        self.end().saturating_sub(1) / PAGE
    }
}

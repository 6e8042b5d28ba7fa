//! Decoded instructions, kept by their addresses.

ghost use Rattle.std.specs.Prelude.{◌≡◌, ◌<◌};
ghost use Rattle.rz_isa.specs.Decoded.{decoded as decoded_of};
ghost use Rattle.rz_isa.specs.Nodes.{spelled_at};
ghost use Rattle.rz_machine.specs.Nodes.{code_in};

use rz_decode::decode;
use rz_image::memory::Memory;
use rz_isa::{Decoded, InsnTable};
use std::alloc::Global;

// How many entries a cache has at first, by how many times it grows, and how many it may come to.
const FIRST: usize = 64;

const GROWTH: usize = 4;

const MOST: usize = 65536;

/// An address, and what the executable bytes there spell.
#[derive(Clone, Copy)]
pub struct Entry {
    pub at: u64,
    pub decoded: Decoded,
}

/// What is spelled at some addresses of a memory, each at the place that its low bits give.
#[derive(Drop)]
pub struct DecodeCache {
    pub entries: Vec<Entry>,
    /// Whether it may have entries: none is kept of a memory that has code which may be written.
    pub is_used: bool,
    /// How many look-ups have missed since it has so many entries, as far as it grows with them.
    pub misses: usize,
}

impl DecodeCache {
    ghost use Rattle.std.specs.Prelude.{◌≡◌, true, IfSome};
    ghost use Rattle.rz_isa.specs.Decoded.{decoded as decoded_of};
    ghost use Rattle.rz_isa.specs.Nodes.{spelled_at};
    ghost use Rattle.rz_machine.specs.Nodes.{code_in};
    ghost use Rattle.rz_machine.specs.Calls.Cache.{IsEntry, Serves};

    /// A cache without entries, for a memory and for what steps make of it. It takes no memory.
    pub fn new<T: InsnTable>(alloc: Global, mem: &Memory) -> DecodeCache
        ensures { Serves (decoded_of T.rows) mem.now result }
    {
        DecodeCache {
            entries: Vec::new(alloc),
            is_used: mem.are_apart(),
            misses: 0,
        }
    }

    /// What the executable bytes at an address spell, where the cache has it. Nothing is copied.
    #[inline(always)]
    pub fn found<T: InsnTable>(&self, mem: &Memory, at: u64) -> Option<&Decoded>
        requires { Serves (decoded_of T.rows) mem.now self.now }
        ensures { IfSome result (λ spelled. spelled.now ≡ spelled_at (decoded_of T.rows) (code_in mem.now) at) }
    {
        let _ = mem;
        let index = place(at, self.entries.len());
        if index < self.entries.len() && self.entries[index].at == at {
            Some(&self.entries[index].decoded)
        } else {
            None
        }
    }

    /// What the executable bytes at an address spell. Where there is no memory to keep it, it is found anew each time.
    pub fn decode<T: InsnTable>(&mut self, alloc: Global, mem: &Memory, at: u64) -> Decoded
        requires { Serves (decoded_of T.rows) mem.now self.old }
        ensures spelled { result ≡ spelled_at (decoded_of T.rows) (code_in mem.now) at }
        ensures serves { Serves (decoded_of T.rows) mem.now self.new }
    {
        let index = place(at, self.entries.len());
        if index < self.entries.len() {
            let entry = self.entries[index];
            if entry.at == at {
                return entry.decoded;
            }
        }
        let decoded = decode_at::<T>(mem, at);
        if self.is_used {
            self.keep::<T>(alloc, mem, Entry { at, decoded });
        }
        decoded
    }

    // Puts an entry in its place, in a cache that first grows where it has missed as often as it has entries.
    #[cold]
    #[inline(never)]
    fn keep<T: InsnTable>(&mut self, alloc: Global, mem: &Memory, entry: Entry)
        requires serves { Serves (decoded_of T.rows) mem.now self.old }
        requires used { self.old.is_used ≡ true }
        requires spelled { IsEntry (decoded_of T.rows) mem.now entry }
        ensures { Serves (decoded_of T.rows) mem.now self.new }
    {
        self.grow::<T>(alloc, mem, entry);
        let index = place(entry.at, self.entries.len());
        if index < self.entries.len() {
            self.entries[index] = entry;
        }
    }

    // Grows where it has missed as often as it has entries: each place then has this entry.
    fn grow<T: InsnTable>(&mut self, alloc: Global, mem: &Memory, entry: Entry)
        requires serves { Serves (decoded_of T.rows) mem.now self.old }
        requires used { self.old.is_used ≡ true }
        requires spelled { IsEntry (decoded_of T.rows) mem.now entry }
        ensures serves { Serves (decoded_of T.rows) mem.now self.new }
        ensures used { self.new.is_used ≡ true }
    {
        let len = self.entries.len();
        if len < MOST {
            if self.misses < len {
                self.misses += 1;
            } else {
                self.misses = 0;
                if let Ok(entries) = vec![in alloc; entry; grown(len)] {
                    self.entries = entries;
                }
            }
        }
    }
}

// The place of an address among so many entries, a power of two.
#[inline(always)]
fn place(at: u64, entries: usize) -> usize {
    at as usize & entries.wrapping_sub(1)
}

// How many entries come after so many.
fn grown(entries: usize) -> usize
    requires { entries < 65536 }
{
    if entries == 0 {
        FIRST
    } else {
        entries * GROWTH
    }
}

/// What the executable bytes at an address spell, with no cache.
#[cold]
#[inline(never)]
pub fn decode_at<T: InsnTable>(mem: &Memory, at: u64) -> Decoded
    ensures { result ≡ spelled_at (decoded_of T.rows) (code_in mem.now) at }
{
    let mut bytes = [0; 15];
    let count = mem.fetch(at, &mut bytes);
    decode::<T>(&bytes[..count as usize], at)
}

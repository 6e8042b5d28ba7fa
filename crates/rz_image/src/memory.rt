//! The memory of a run.

ghost use Rattle.std.specs.Prelude.{◌≡◌, ◌+◌, ◌^◌, ◌<◌, ◌≤◌, length, take, nat_le, false, IsTrue, IfOk, IfErr, OnOk, OnErr, Some, None};
ghost use Rattle.rz_image.specs.Memory.{Ascend, bytes_at, bytes_in, fetch as fetch_at, is_allowed, is_readable, is_writable, put_bytes, refused, reopened, set_open as opened_to};
ghost use Rattle.rz_image.specs.Apart.{are_apart as are_apart_of, is_apart as is_apart_of};
ghost use Rattle.rz_image.specs.Word.{put_word, refused_word, word_at};

use crate::access::Access;
use crate::region::{Region, Touch};
use crate::runs::{all_allow, copy, fetch};
use crate::words::{load, load_run, put_run, store, store_bytes};
use rz_num::{Bytes, OutOfMemory, Width};
use std::alloc::Global;
use std::marker::Model;

/// Regions that ascend and don't meet, each below address 2^64 and open no further than it has bytes.
#[derive(Drop)]
pub struct Memory {
    regions: Vec<Region>,
}

impl Model for Memory {
    ghost use Rattle.std.specs.Prelude.{List};
    ghost use Rattle.rz_image.specs.declared.region.Region.{Region};
    ghost use Rattle.rz_image.specs.Memory.{Ascend};

    ghost Value = { List Region };

    ghost view = { λ m. m.regions.items };

    ghost invariant = { λ m. Ascend m.regions.items };
}

impl Memory {
    /// The memory of these regions. It takes no memory.
    pub fn new(regions: Vec<Region>) -> Memory
        requires { Ascend regions.items }
        ensures { result ≡ regions.items }
    {
        Memory { regions }
    }

    /// The word at an address, the low byte first; addresses wrap at 2^64. It refuses exactly where a byte may not
    /// be read, with the first such address in the order of the access.
    #[inline(always)]
    pub fn load(&self, at: u64, width: Width) -> Result<u64, Touch>
        ensures value { IfOk result (λ word. word ≡ word_at self.now at width) }
        ensures allowed { IfOk result (λ word. refused_word is_readable self.now at width ≡ None) }
        ensures touch { IfErr result (λ touch. refused_word is_readable self.now at width ≡ Some touch.address) }
    {
        load(self.regions.as_slice(), at, width)
    }

    /// Writes the low bytes of a value, as many as the width has, the low byte first; addresses wrap at 2^64.
    /// It refuses exactly where a byte may not be written, with the first such address in the order of the access;
    /// then nothing is changed.
    #[inline(always)]
    pub fn store(&mut self, at: u64, width: Width, value: u64) -> Result<(), Touch>
        ensures stored { OnOk result (self.new ≡ put_word self.old at width value) }
        ensures allowed { OnOk result (refused_word is_writable self.old at width ≡ None) }
        ensures touch { IfErr result (λ touch. refused_word is_writable self.old at width ≡ Some touch.address) }
        ensures unchanged { OnErr result (self.new ≡ self.old) }
    {
        store(self.regions.as_mut_slice(), at, width, value)
    }

    /// Fills `out` with the bytes from an address on, where one region has them all and lets them be read, and says
    /// whether it did.
    pub fn load_run(&self, at: u64, out: &mut [u8]) -> bool
        ensures done { IsTrue result → out.new ≡ bytes_at self.now at (length out.old) }
        ensures allowed { IsTrue result → refused is_readable self.now at (length out.old) ≡ None }
    {
        load_run(self.regions.as_slice(), at, out)
    }

    /// Writes bytes from an address on, where one region has them all and lets them be written, and says whether it
    /// did; else nothing is changed. There is one byte at least.
    pub fn store_run(&mut self, at: u64, bytes: &[u8]) -> bool
        requires { 0 < length bytes.now }
        ensures stored { IsTrue result → self.new ≡ put_bytes self.old at bytes.now }
        ensures allowed { IsTrue result → refused is_writable self.old at (length bytes.now) ≡ None }
        ensures unchanged { result ≡ false → self.new ≡ self.old }
    {
        put_run(self.regions.as_mut_slice(), at, bytes)
    }

    /// Writes each of the bytes that may be written, from an address on; addresses wrap at 2^64.
    pub fn store_bytes(&mut self, at: u64, bytes: &[u8])
        ensures { self.new ≡ put_bytes self.old at bytes.now }
    {
        store_bytes(self.regions.as_mut_slice(), at, bytes);
    }

    /// The executable bytes at an address, up to the first that isn't, and at most 15: how many there are.
    /// They are the first ones of `out`.
    pub fn fetch(&self, at: u64, out: &mut [u8; 15]) -> u8
        ensures length { result ≤ 15 }
        ensures bytes { take result out.new ≡ fetch_at self.now at 15 }
    {
        fetch(self.regions.as_slice(), at, out)
    }

    /// Whether each of the `len` bytes from `at` on may be read. A range that goes past the last address may not.
    pub fn can_read(&self, at: u64, len: u64) -> bool
        ensures value { result ≡ is_allowed is_readable self.now at len }
        ensures fits { IsTrue result → at + len ≤ 2 ^ 64 }
    {
        is_within(at, len) && all_allow(self.regions.as_slice(), at, len, Access::Read)
    }

    /// Whether each of the `len` bytes from `at` on may be written. A range that goes past the last address may not.
    pub fn can_write(&self, at: u64, len: u64) -> bool
        ensures value { result ≡ is_allowed is_writable self.now at len }
        ensures fits { IsTrue result → at + len ≤ 2 ^ 64 }
    {
        is_within(at, len) && all_allow(self.regions.as_slice(), at, len, Access::Write)
    }

    /// Whether no region may be both written and executed.
    pub fn are_apart(&self) -> bool
        ensures { result ≡ are_apart_of self.now }
    {
        self.regions.iter().all(|region| is_apart(region))
    }

    /// Opens the region of a number, from 0, up to `opened` bytes. The bytes that it closes become zero.
    pub fn set_open(&mut self, region: u32, opened: u64)
        requires there { region < length self.old }
        requires inside { opened ≤ length (bytes_in self.old region) }
        ensures { self.new ≡ opened_to self.old region opened }
    {
        set_open(&mut self.regions[region as usize], opened);
    }

    /// The `len` bytes from `at` on, whatever their permissions; 0 where there is none. It refuses for want of memory alone.
    pub fn copy(&self, alloc: Global, at: u64, len: u64) -> Result<Bytes, OutOfMemory>
        requires { at + len ≤ 2 ^ 64 }
        ensures { IfOk result (λ bytes. bytes ≡ bytes_at self.now at len) }
    {
        copy(alloc, self.regions.as_slice(), at, len)
    }
}

// Whether a range ends at the last address or before.
fn is_within(at: u64, len: u64) -> bool
    ensures { result ≡ nat_le (at + len) (2 ^ 64) }
{
    len == 0 || at <= u64::MAX - (len - 1)
}

// Whether a region may not be both written and executed.
fn is_apart(region: &Region) -> bool
    ensures { result ≡ is_apart_of region.now }
{
    !(region.perm.writes() && region.perm.executes())
}

// Opens a region up to `opened` bytes, and makes the bytes that it closes zero.
fn set_open(region: &mut Region, opened: u64)
    requires inside { opened ≤ length region.old.bytes }
    requires fits { region.old.opened ≤ length region.old.bytes }
    ensures { region.new ≡ reopened opened region.old }
{
    if opened < region.opened {
        region.bytes.clear(opened as usize, region.opened as usize);
    }
    region.opened = opened;
}

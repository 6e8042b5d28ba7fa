//! Bytes that are followed by zeros.

ghost use Rattle.std.specs.Prelude.{◌≡◌, ◌+◌, ◌-◌, ◌<◌, ◌≤◌, ◌++◌, length, take, drop, get_or, replicate, vec_capacity, IfOk};

use rz_num::{Bytes, OutOfMemory};
use std::alloc::Global;
use std::marker::Model;

// What is looked at where zeros aren't held.
static ZEROS: [u8; 64] = [0; 64];

// How many zeros come to be held at once.
const STEP: usize = 4096;

/// Bytes that are followed by zeros up to a length. Zeros at the end are held once a byte after them is written: there is
/// room for them, so that a write takes no memory.
#[derive(Drop)]
pub struct Padded {
    held: Vec<u8>,
    len: usize,
}

impl Model for Padded {
    ghost use Rattle.std.specs.Prelude.{ℕ, List, ◌-◌, ◌≤◌, ◌++◌, length, replicate, vec_capacity};

    ghost Value = { List ℕ };

    ghost view = { λ p. p.held.items ++ replicate (p.len - length p.held.items) 0 };

    ghost invariant = { λ p. (length p.held.items ≤ p.len) × (p.len ≤ vec_capacity p.held) };
}

impl Padded {
    /// These bytes, and zeros up to a length. It refuses for want of memory alone.
    pub fn new(alloc: Global, bytes: &[u8], len: u64) -> Result<Padded, OutOfMemory>
        requires { length bytes.now ≤ len }
        ensures { IfOk result (λ padded. padded ≡ bytes.now ++ replicate (len - length bytes.now) 0) }
    {
        let len = len as usize;
        let mut held = Vec::with_capacity(alloc, len)?;
        held.extend_from_slice(bytes)?;
        Ok(Padded { held, len })
    }

    /// These bytes, in their own memory.
    pub fn from_bytes(bytes: Bytes) -> Padded
        ensures { result ≡ bytes }
    {
        let held = bytes.into_vec();
        let len = held.len();
        Padded { held, len }
    }

    /// How many bytes there are, with the zeros.
    #[inline(always)]
    pub fn len(&self) -> usize
        ensures { result ≡ length self.now }
    {
        self.len
    }

    /// The byte at a place.
    pub fn byte(&self, place: usize) -> u8
        requires { place < length self.now }
        ensures { result ≡ get_or self.now place 0 }
    {
        if place < self.held.len() {
            self.held[place]
        } else {
            0
        }
    }

    /// Bytes from a place on, and none past another: at least one, where there is one.
    #[inline(always)]
    pub fn run(&self, from: usize, to: usize) -> &[u8]
        requires order { from ≤ to }
        requires inside { to ≤ length self.now }
        ensures same { result.now ≡ take (length result.now) (drop from self.now) }
        ensures within { from + length result.now ≤ to }
        ensures some { length result.now ≡ 0 → from ≡ to }
    {
        let held = self.held.len();
        if from < held {
            &self.held[from..to.min(held)]
        } else {
            zeros(to - from)
        }
    }

    /// Writes bytes over those from place `at` on. All other bytes stay. It takes no memory.
    #[inline(always)]
    pub fn overwrite(&mut self, at: usize, bytes: &[u8])
        requires { at + length bytes.now ≤ length self.old }
        ensures { self.new ≡ take at self.old ++ (bytes.now ++ drop (at + length bytes.now) self.old) }
    {
        let len = self.len;
        let end = at + bytes.len();
        reach(&mut self.held, end, len);
        self.held[at..end].copy_from_slice(bytes);
    }

    /// Makes the bytes from place `from` on zero, up to place `to`. All other bytes stay. It takes no memory, and time for
    /// what is held of these bytes.
    pub fn clear(&mut self, from: usize, to: usize)
        requires order { from ≤ to }
        requires inside { to ≤ length self.old }
        ensures { self.new ≡ take from self.old ++ (replicate (to - from) 0 ++ drop to self.old) }
    {
        let end = to.min(self.held.len());
        if from < end {
            self.held[from..end].fill(0);
        }
    }
}

// Zeros to look at: some of so many, where these aren't none.
#[inline(always)]
fn zeros<'a>(count: usize) -> &'a [u8]
    ensures zeros { result.now ≡ replicate (length result.now) 0 }
    ensures within { length result.now ≤ count }
    ensures some { length result.now ≡ 0 → count ≡ 0 }
{
    &ZEROS[..count.min(ZEROS.len())]
}

// Holds what lies before a place, and nothing past a length for which there is room.
#[inline(always)]
fn reach(held: &mut Vec<u8>, end: usize, len: usize)
    requires inside { end ≤ len }
    requires fits { length held.old.items ≤ len }
    requires room { len ≤ vec_capacity held.old }
    ensures zeros { held.new.items ≡ held.old.items ++ replicate (length held.new.items - length held.old.items) 0 }
    ensures enough { end ≤ length held.new.items }
    ensures fits { length held.new.items ≤ len }
    ensures room { len ≤ vec_capacity held.new }
{
    if held.len() < end {
        hold(held, end, len);
    }
}

// Holds zeros up to a place at least, and none past a length for which there is room.
#[cold]
#[inline(never)]
fn hold(held: &mut Vec<u8>, end: usize, len: usize)
    requires short { length held.old.items ≤ end }
    requires inside { end ≤ len }
    requires room { len ≤ vec_capacity held.old }
    ensures zeros { held.new.items ≡ held.old.items ++ replicate (length held.new.items - length held.old.items) 0 }
    ensures enough { end ≤ length held.new.items }
    ensures inside { length held.new.items ≤ len }
    ensures room { len ≤ vec_capacity held.new }
{
    let step = end.saturating_add(STEP).min(len);
    let _ = held.resize(step, 0);
}

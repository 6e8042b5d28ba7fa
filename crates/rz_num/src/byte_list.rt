// Lists of bytes.

ghost use Rattle.std.specs.Prelude.{◌≡◌, ℕ, List, [], ◌∷◌, ◌++◌, ◌+◌, ◌-◌, ◌<◌, ◌≤◌, OnOk, OnErr, IfOk, IsTrue, length, take, drop, replicate, slice_index};
ghost use Rattle.rz_num.specs.Bytes.{are_bytes};

use crate::OutOfMemory;
use std::alloc::Global;
use std::marker::Model;

/// A list of bytes.
#[derive(Debug, Drop)]
pub struct Bytes {
    items: Vec<u8>,
}

impl Model for Bytes {
    ghost Value = { List ℕ };

    ghost view = { λ b. b.items.items };
}

impl Bytes {
    /// The list of no bytes. It takes no memory.
    pub fn new(alloc: Global) -> Bytes
        ensures { result ≡ [] }
    {
        Bytes {
            items: Vec::new(alloc),
        }
    }

    /// A copy of a slice. It refuses for want of memory alone.
    pub fn from_slice(alloc: Global, bytes: &[u8]) -> Result<Bytes, OutOfMemory>
        ensures { IfOk result (λ list. list ≡ bytes.now) }
    {
        Ok(Bytes {
            items: Vec::from_slice(alloc, bytes)?,
        })
    }

    /// The bytes of a vector, in its own memory.
    pub fn from_vec(items: Vec<u8>) -> Bytes
        ensures { result ≡ items.items }
    {
        Bytes { items }
    }

    /// The vector of the bytes, in the list's own memory.
    pub fn into_vec(self) -> Vec<u8>
        ensures { result.items ≡ self }
    {
        let Bytes { items } = self;
        items
    }

    /// Appends a byte. It refuses for want of memory alone, and then the list is unchanged.
    pub fn push(&mut self, byte: u8) -> Result<(), OutOfMemory>
        ensures ok { OnOk result (self.new ≡ self.old ++ byte ∷ []) }
        ensures err { OnErr result (self.new ≡ self.old) }
    {
        self.items.push(byte)?;
        Ok(())
    }

    /// Appends the bytes of a slice. It refuses for want of memory alone, and then the list is unchanged.
    pub fn push_all(&mut self, bytes: &[u8]) -> Result<(), OutOfMemory>
        ensures ok { OnOk result (self.new ≡ self.old ++ bytes.now) }
        ensures err { OnErr result (self.new ≡ self.old) }
    {
        self.items.extend_from_slice(bytes)?;
        Ok(())
    }

    /// Writes bytes over those from place `at` on. All other bytes stay. It takes no memory.
    pub fn overwrite(&mut self, at: usize, bytes: &[u8])
        requires { at + length bytes.now ≤ length self.old }
        ensures { self.new ≡ take at self.old ++ (bytes.now ++ drop (at + length bytes.now) self.old) }
    {
        self.items[at..at + bytes.len()].copy_from_slice(bytes);
    }

    /// Makes the bytes from place `from` on zero, up to place `to`. All other bytes stay. It takes no memory.
    pub fn clear(&mut self, from: usize, to: usize)
        requires order { from ≤ to }
        requires inside { to ≤ length self.old }
        ensures { self.new ≡ take from self.old ++ (replicate (to - from) 0 ++ drop to self.old) }
    {
        self.items[from..to].fill(0);
    }

    /// The bytes as a slice.
    pub fn as_slice(&self) -> &[u8]
        ensures value { result.now ≡ self.now }
        ensures bytes { (i : ℕ) → slice_index self.now i < 256 }
    {
        let items = self.items.as_slice();
        are_bytes(items);
        items
    }
}

/// Tells a proof that each item of a slice of bytes is below 256. It does nothing when it runs.
pub fn are_bytes(bytes: &[u8])
    ensures test { IsTrue (are_bytes bytes.now) }
    ensures each { (i : ℕ) → slice_index bytes.now i < 256 }
{
    let _ = bytes;
}

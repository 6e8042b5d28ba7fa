// Lists of addresses and of pairs of addresses.

ghost use Rattle.std.specs.Prelude.{◌≡◌, ℕ, List, [], ◌∷◌, ◌++◌, ◌<◌, ◌^◌, OnOk, OnErr, IfOk, slice_index};

use crate::OutOfMemory;
use std::alloc::Global;
use std::marker::Model;

/// A list of 64-bit words.
#[derive(Debug, Drop)]
pub struct Words {
    items: Vec<u64>,
}

impl Model for Words {
    ghost Value = { List ℕ };

    ghost view = { λ w. w.items.items };
}

impl Words {
    /// The list of no words. It takes no memory.
    pub fn new(alloc: Global) -> Words
        ensures { result ≡ [] }
    {
        Words {
            items: Vec::new(alloc),
        }
    }

    /// A copy of a slice. It refuses for want of memory alone.
    pub fn from_slice(alloc: Global, words: &[u64]) -> Result<Words, OutOfMemory>
        ensures { IfOk result (λ list. list ≡ words.now) }
    {
        Ok(Words {
            items: Vec::from_slice(alloc, words)?,
        })
    }

    /// The words of a vector, in its own memory.
    pub fn from_vec(items: Vec<u64>) -> Words
        ensures { result ≡ items.items }
    {
        Words { items }
    }

    /// Appends a word. It refuses for want of memory alone, and then the list is unchanged.
    pub fn push(&mut self, word: u64) -> Result<(), OutOfMemory>
        ensures ok { OnOk result (self.new ≡ self.old ++ word ∷ []) }
        ensures err { OnErr result (self.new ≡ self.old) }
    {
        self.items.push(word)?;
        Ok(())
    }

    /// Appends the words of a slice. It refuses for want of memory alone, and then the list is unchanged.
    pub fn push_all(&mut self, words: &[u64]) -> Result<(), OutOfMemory>
        ensures ok { OnOk result (self.new ≡ self.old ++ words.now) }
        ensures err { OnErr result (self.new ≡ self.old) }
    {
        self.items.extend_from_slice(words)?;
        Ok(())
    }

    /// The words as a slice.
    pub fn as_slice(&self) -> &[u64]
        ensures value { result.now ≡ self.now }
        ensures words { (i : ℕ) → slice_index self.now i < 2 ^ 64 }
    {
        let items = self.items.as_slice();
        each_word(items);
        items
    }
}

// Each item of a slice of words is below 2 ^ 64.
fn each_word(words: &[u64])
    ensures { (i : ℕ) → slice_index words.now i < 2 ^ 64 }
{
    let _ = words;
}

/// A list of pairs of 64-bit words, as edges from an address to an address.
#[derive(Debug, Drop)]
pub struct Pairs {
    items: Vec<(u64, u64)>,
}

impl Model for Pairs {
    ghost Value = { List (ℕ × ℕ) };

    ghost view = { λ p. p.items.items };
}

impl Pairs {
    /// The list of no pairs. It takes no memory.
    pub fn new(alloc: Global) -> Pairs
        ensures { result ≡ [] }
    {
        Pairs {
            items: Vec::new(alloc),
        }
    }

    /// A copy of a slice. It refuses for want of memory alone.
    pub fn from_slice(alloc: Global, pairs: &[(u64, u64)]) -> Result<Pairs, OutOfMemory>
        ensures { IfOk result (λ list. list ≡ pairs.now) }
    {
        Ok(Pairs {
            items: Vec::from_slice(alloc, pairs)?,
        })
    }

    /// The pairs of a vector, in its own memory.
    pub fn from_vec(items: Vec<(u64, u64)>) -> Pairs
        ensures { result ≡ items.items }
    {
        Pairs { items }
    }

    /// Appends a pair. It refuses for want of memory alone, and then the list is unchanged.
    pub fn push(&mut self, pair: (u64, u64)) -> Result<(), OutOfMemory>
        ensures ok { OnOk result (self.new ≡ self.old ++ pair ∷ []) }
        ensures err { OnErr result (self.new ≡ self.old) }
    {
        self.items.push(pair)?;
        Ok(())
    }

    /// Appends the pairs of a slice. It refuses for want of memory alone, and then the list is unchanged.
    pub fn push_all(&mut self, pairs: &[(u64, u64)]) -> Result<(), OutOfMemory>
        ensures ok { OnOk result (self.new ≡ self.old ++ pairs.now) }
        ensures err { OnErr result (self.new ≡ self.old) }
    {
        self.items.extend_from_slice(pairs)?;
        Ok(())
    }

    /// The pairs as a slice.
    pub fn as_slice(&self) -> &[(u64, u64)]
        ensures { result.now ≡ self.now }
    {
        self.items.as_slice()
    }
}

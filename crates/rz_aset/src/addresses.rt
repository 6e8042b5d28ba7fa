// Sets of addresses.

ghost use Rattle.std.specs.Prelude.{◌≡◌, ◌<◌, ◌^◌, ℕ, [], ◌∷◌, not, length, nat_eq, slice_get, Some, is_some, IfSome, OnOk, OnErr, IfOk, IsSorted};
ghost use Rattle.std.specs.Ordering.{nat_cmp};
ghost use Rattle.std.specs.List.{IsDistinct};
ghost use Rattle.std.specs.List.Sorted.{IsPermutation};
ghost use Rattle.rz_aset.specs.Sets.{AddsFront, has, with_address, with_addresses};
ghost use Rattle.rz_aset.specs.Sorted.{sorted as sorted_of};

use indexmap::IndexSet;
use rz_num::{OutOfMemory, Words};
use std::alloc::Global;
use std::marker::Model;

/// Addresses, each once, in the order in which they were first seen. A look-up takes constant time on average.
#[derive(Drop)]
pub struct AddrSet {
    alloc: Global,
    /// None until the first address is added, so that a new set takes no memory.
    items: Option<Box<IndexSet<u64>>>,
}

impl Model for AddrSet {
    ghost use Rattle.std.specs.Prelude.{List, ℕ, [], option_map, unwrap_or};

    ghost Value = { List ℕ };

    ghost view = { λ s. unwrap_or (option_map (λ b. b.value.keys) s.items) [] };
}

impl AddrSet {
    /// The set of no addresses. It takes no memory.
    pub fn new(alloc: Global) -> AddrSet
        ensures { result ≡ [] }
    {
        AddrSet { alloc, items: None }
    }

    /// Adds an address, and says whether it is new. It refuses for want of memory alone, and then the set is unchanged.
    pub fn insert(&mut self, x: u64) -> Result<bool, OutOfMemory>
        ensures fresh { IfOk result (λ fresh. fresh ≡ not (has self.old x)) }
        ensures ok { OnOk result (self.new ≡ with_address self.old x) }
        ensures err { OnErr result (self.new ≡ self.old) }
    {
        match &mut self.items {
            Some(items) => Ok(items.insert(x)?),
            None => {
                self.items = Some(single(self.alloc, x)?);
                Ok(true)
            }
        }
    }

    /// Adds the addresses of a slice. It refuses for want of memory alone, and then those from the front of the slice up
    /// to some place were added.
    pub fn insert_all(&mut self, xs: &[u64]) -> Result<(), OutOfMemory>
        ensures ok { OnOk result (self.new ≡ with_addresses self.old xs.now) }
        ensures err { OnErr result (AddsFront self.old self.new xs.now) }
    {
        for x in xs {
            self.insert(*x)?;
        }
        Ok(())
    }

    /// Whether the set has the address.
    pub fn contains(&self, x: u64) -> bool
        ensures { result ≡ has self.now x }
    {
        match &self.items {
            Some(items) => items.contains(&x),
            None => false,
        }
    }

    /// The number of its addresses.
    pub fn len(&self) -> usize
        ensures len { result ≡ length self.now }
        ensures small { result < 2 ^ 63 }
    {
        match &self.items {
            Some(items) => items.len(),
            None => 0,
        }
    }

    /// The address that was first seen at place `i`, from 0 on; None exactly past the end.
    pub fn get(&self, i: usize) -> Option<u64>
        ensures { result ≡ slice_get self.now i }
    {
        self.as_slice().get(i).copied()
    }

    /// The place at which an address was first seen, from 0 on; None exactly where the set doesn't have it.
    pub fn place(&self, x: u64) -> Option<usize>
        ensures found { IfSome result (λ i. slice_get self.now i ≡ Some x) }
        ensures variant { is_some result ≡ has self.now x }
        ensures distinct { IsDistinct nat_eq self.now }
    {
        let _ = self.as_slice();
        match &self.items {
            Some(items) => items.get_index_of(&x),
            None => None,
        }
    }

    /// Its addresses in the order in which they were first seen.
    pub fn as_slice(&self) -> &[u64]
        ensures value { result.now ≡ self.now }
        ensures distinct { IsDistinct nat_eq self.now }
    {
        match &self.items {
            Some(items) => items.as_slice(),
            None => &[],
        }
    }

    /// Its addresses in ascending order. It refuses for want of memory alone.
    pub fn sorted(&self, alloc: Global) -> Result<Words, OutOfMemory>
        ensures ascending { IfOk result (IsSorted nat_cmp) }
        ensures same { IfOk result (IsPermutation self.now) }
        ensures value { IfOk result (λ words. words ≡ sorted_of self.now) }
    {
        let mut words = Vec::from_slice(alloc, self.as_slice())?;
        words.sort_unstable();
        Ok(Words::from_vec(words))
    }
}

// The set of one address.
fn single(alloc: Global, x: u64) -> Result<Box<IndexSet<u64>>, OutOfMemory>
    ensures { IfOk result (λ set. set.value.keys ≡ x ∷ []) }
{
    let mut set = Box::new(alloc, IndexSet::new(alloc))?;
    set.insert(x)?;
    Ok(set)
}

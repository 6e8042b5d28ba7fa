// Sets of edges.

ghost use Rattle.std.specs.Prelude.{◌≡◌, ◌<◌, ◌^◌, ℕ, [], ◌∷◌, not, length, slice_get, OnOk, OnErr, IfOk, IsSorted};
ghost use Rattle.std.specs.List.{IsDistinct};
ghost use Rattle.std.specs.List.Sorted.{IsPermutation};
ghost use Rattle.rz_aset.specs.Sets.{edge_cmp, has_edge, is_same_edge, with_edge};
ghost use Rattle.rz_aset.specs.Sorted.{sorted_edges};

use indexmap::IndexSet;
use rz_num::{OutOfMemory, Pairs};
use std::alloc::Global;
use std::marker::Model;

/// Edges from an address to an address, each once, in the order in which they were first seen. A look-up takes constant
/// time on average.
#[derive(Drop)]
pub struct EdgeSet {
    alloc: Global,
    /// None until the first edge is added, so that a new set takes no memory.
    items: Option<Box<IndexSet<(u64, u64)>>>,
}

impl Model for EdgeSet {
    ghost use Rattle.std.specs.Prelude.{List, ℕ, [], option_map, unwrap_or};

    ghost Value = { List (ℕ × ℕ) };

    ghost view = { λ s. unwrap_or (option_map (λ b. b.value.keys) s.items) [] };
}

impl EdgeSet {
    /// The set of no edges. It takes no memory.
    pub fn new(alloc: Global) -> EdgeSet
        ensures { result ≡ [] }
    {
        EdgeSet { alloc, items: None }
    }

    /// Adds an edge, and says whether it is new. It refuses for want of memory alone, and then the set is unchanged.
    pub fn insert(&mut self, x: (u64, u64)) -> Result<bool, OutOfMemory>
        ensures fresh { IfOk result (λ fresh. fresh ≡ not (has_edge self.old x)) }
        ensures ok { OnOk result (self.new ≡ with_edge self.old x) }
        ensures err { OnErr result (self.new ≡ self.old) }
    {
        match &mut self.items {
            Some(items) => Ok(items.insert(x)?),
            None => {
                self.items = Some(single(self.alloc, x)?);
                Ok(true)
            }
        }
    }

    /// Whether the set has the edge.
    pub fn contains(&self, x: (u64, u64)) -> bool
        ensures { result ≡ has_edge self.now x }
    {
        match &self.items {
            Some(items) => items.contains(&x),
            None => false,
        }
    }

    /// The number of its edges.
    pub fn len(&self) -> usize
        ensures len { result ≡ length self.now }
        ensures small { result < 2 ^ 63 }
    {
        match &self.items {
            Some(items) => items.len(),
            None => 0,
        }
    }

    /// The edge that was first seen at place `i`, from 0 on; None exactly past the end.
    pub fn get(&self, i: usize) -> Option<(u64, u64)>
        ensures { result ≡ slice_get self.now i }
    {
        self.as_slice().get(i).copied()
    }

    /// Its edges in the order in which they were first seen.
    pub fn as_slice(&self) -> &[(u64, u64)]
        ensures value { result.now ≡ self.now }
        ensures distinct { IsDistinct is_same_edge self.now }
    {
        match &self.items {
            Some(items) => items.as_slice(),
            None => &[],
        }
    }

    /// Its edges in ascending order, by their first and then by their second address. It refuses for want of memory
    /// alone.
    pub fn sorted(&self, alloc: Global) -> Result<Pairs, OutOfMemory>
        ensures ascending { IfOk result (IsSorted edge_cmp) }
        ensures same { IfOk result (IsPermutation self.now) }
        ensures value { IfOk result (λ pairs. pairs ≡ sorted_edges self.now) }
    {
        let mut pairs = Vec::from_slice(alloc, self.as_slice())?;
        pairs.sort_unstable();
        Ok(Pairs::from_vec(pairs))
    }
}

// The set of one edge.
fn single(alloc: Global, x: (u64, u64)) -> Result<Box<IndexSet<(u64, u64)>>, OutOfMemory>
    ensures { IfOk result (λ set. set.value.keys ≡ x ∷ []) }
{
    let mut set = Box::new(alloc, IndexSet::new(alloc))?;
    set.insert(x)?;
    Ok(set)
}

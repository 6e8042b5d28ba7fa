// Sets and graphs with more members.

ghost use Rattle.std.specs.Prelude.{◌≡◌, ◌&&◌, ◌||◌, ℕ, nat_eq, IfOk, OnOk};
ghost use Rattle.rz_aset.specs.Sets.{has};
ghost use Rattle.rz_paths.specs.Sets.{joins};

use rz_aset::{AddrSet, EdgeSet};
use rz_flow::Flow;
use rz_num::OutOfMemory;
use std::alloc::Global;

/// Adds an address. It refuses for want of memory alone.
pub fn add(set: &mut AddrSet, at: u64) -> Result<(), OutOfMemory>
    ensures { OnOk result ((a : ℕ) → has set.new a ≡ (has set.old a || nat_eq a at)) }
{
    set.insert(at)?;
    Ok(())
}

/// Adds addresses. It refuses for want of memory alone.
pub fn add_all(set: &mut AddrSet, list: &[u64]) -> Result<(), OutOfMemory>
    ensures { OnOk result ((a : ℕ) → has set.new a ≡ (has set.old a || has list.now a)) }
{
    set.insert_all(list)?;
    Ok(())
}

/// The addresses of two sets. It refuses for want of memory alone.
pub fn union(alloc: Global, one: &AddrSet, other: &AddrSet) -> Result<AddrSet, OutOfMemory>
    ensures { IfOk result (λ set. (a : ℕ) → has set a ≡ (has one.now a || has other.now a)) }
{
    let mut set = AddrSet::new(alloc);
    add_all(&mut set, one.as_slice())?;
    add_all(&mut set, other.as_slice())?;
    Ok(set)
}

/// Adds an edge. It refuses for want of memory alone.
pub fn add_edge(set: &mut EdgeSet, from: u64, to: u64) -> Result<(), OutOfMemory>
    ensures { OnOk result ((a b : ℕ) →
        joins set.new a b ≡ (joins set.old a b || (nat_eq a from && nat_eq b to))) }
{
    set.insert((from, to))?;
    Ok(())
}

/// Adds edges. It refuses for want of memory alone.
pub fn add_edges(set: &mut EdgeSet, list: &[(u64, u64)]) -> Result<(), OutOfMemory>
    ensures { OnOk result ((a b : ℕ) → joins set.new a b ≡ (joins set.old a b || joins list.now a b)) }
{
    for edge in list {
        add_edge(set, edge.0, edge.1)?;
    }
    Ok(())
}

/// Adds the edges from an address to each of some. It refuses for want of memory alone.
pub fn add_edges_from(set: &mut EdgeSet, from: u64, to: &[u64]) -> Result<(), OutOfMemory>
    ensures { OnOk result ((a b : ℕ) →
        joins set.new a b ≡ (joins set.old a b || (nat_eq a from && has to.now b))) }
{
    for b in to {
        add_edge(set, from, *b)?;
    }
    Ok(())
}

/// Adds the edges from each of some addresses to each of others. It refuses for want of memory alone.
pub fn add_product(set: &mut EdgeSet, from: &[u64], to: &[u64]) -> Result<(), OutOfMemory>
    ensures { OnOk result ((a b : ℕ) →
        joins set.new a b ≡ (joins set.old a b || (has from.now a && has to.now b))) }
{
    for a in from {
        add_edges_from(set, *a, to)?;
    }
    Ok(())
}

/// The edges of two sets. It refuses for want of memory alone.
pub fn edge_union(alloc: Global, one: &EdgeSet, other: &EdgeSet) -> Result<EdgeSet, OutOfMemory>
    ensures { IfOk result (λ set. (a b : ℕ) → joins set a b ≡ (joins one.now a b || joins other.now a b)) }
{
    let mut set = EdgeSet::new(alloc);
    add_edges(&mut set, one.as_slice())?;
    add_edges(&mut set, other.as_slice())?;
    Ok(set)
}

/// Adds an edge to a graph, with its ends. It refuses for want of memory alone.
pub fn link(flow: &mut Flow, from: u64, to: u64) -> Result<(), OutOfMemory>
    ensures nodes { OnOk result ((a : ℕ) →
        has flow.new.nodes a ≡ (has flow.old.nodes a || (nat_eq a from || nat_eq a to))) }
    ensures edges { OnOk result ((a b : ℕ) → joins flow.new.edges a b
        ≡ (joins flow.old.edges a b || (nat_eq a from && nat_eq b to))) }
{
    flow.add_node(from)?;
    flow.add_node(to)?;
    flow.add_edge(from, to)?;
    Ok(())
}

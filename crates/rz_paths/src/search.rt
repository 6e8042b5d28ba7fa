// What is reached from a set along the successors that a graph tells.

ghost use Rattle.std.specs.Prelude.{◌≡◌, ◌&&◌, ◌||◌, Bool, nat_eq, ℕ, OnOk, IfOk};
ghost use Rattle.rz_aset.specs.Sets.{HasExactly, has};
ghost use Rattle.rz_paths.specs.Sets.{In, Reached, joins};

use crate::sets::link;
use rz_aset::AddrSet;
use rz_flow::Flow;
use rz_num::OutOfMemory;
use std::alloc::Global;

/// A graph that tells which addresses an address leads to.
pub trait Successors {
    ghost leads: { Self → ℕ → ℕ → Bool };

    /// The addresses that `a` leads to. It refuses for want of memory alone.
    fn successors(&self, alloc: Global, a: u64) -> Result<Vec<u64>, OutOfMemory>
        ensures { IfOk result (λ list. (b : ℕ) → has list.items b ≡ leads self.now a b) };
}

/// The addresses that are reached from the starts, each followed once. It refuses for want of memory alone.
pub fn reach<G: Successors>(
    alloc: Global,
    graph: &G,
    starts: &[u64],
) -> Result<AddrSet, OutOfMemory>
    ensures { IfOk result (λ set. HasExactly set (Reached (In starts.now) (G.leads graph.now))) }
{
    let mut found = AddrSet::new(alloc);
    found.insert_all(starts)?;
    let mut followed = 0;
    while followed < found.len() {
        let at = found.as_slice()[followed];
        let next = graph.successors(alloc, at)?;
        found.insert_all(&next)?;
        followed += 1;
    }
    Ok(found)
}

/// The edges of a graph that leave some nodes. It refuses for want of memory alone.
pub fn flow_of<G: Successors>(alloc: Global, graph: &G, nodes: &[u64]) -> Result<Flow, OutOfMemory>
    ensures nodes { IfOk result (λ flow. (a : ℕ) → In nodes.now a → In flow.nodes a) }
    ensures edges { IfOk result (λ flow. (a b : ℕ) →
        joins flow.edges a b ≡ (has nodes.now a && G.leads graph.now a b)) }
{
    let mut flow = Flow::new(alloc)?;
    for a in nodes {
        let found = graph.successors(alloc, *a)?;
        link_all(&mut flow, *a, &found)?;
    }
    Ok(flow)
}

/// Adds a node to a graph, and edges from it. It refuses for want of memory alone.
pub fn link_all(flow: &mut Flow, from: u64, to: &[u64]) -> Result<(), OutOfMemory>
    ensures nodes { OnOk result ((a : ℕ) →
        has flow.new.nodes a ≡ (has flow.old.nodes a || (nat_eq a from || has to.now a))) }
    ensures edges { OnOk result ((a b : ℕ) → joins flow.new.edges a b
        ≡ (joins flow.old.edges a b || (nat_eq a from && has to.now b))) }
{
    link_node(flow, from)?;
    for b in to {
        link(flow, from, *b)?;
    }
    Ok(())
}

// Adds a node to a graph.
fn link_node(flow: &mut Flow, at: u64) -> Result<(), OutOfMemory>
    ensures nodes { OnOk result ((a : ℕ) → has flow.new.nodes a ≡ (has flow.old.nodes a || nat_eq a at)) }
    ensures edges { OnOk result (flow.new.edges ≡ flow.old.edges) }
{
    flow.add_node(at)?;
    Ok(())
}

// A graph of addresses.

ghost use Rattle.std.specs.Prelude.{◌≡◌, ◌&&◌, ℕ, [], Some, IsTrue, IfOk, OnOk, OnErr, All, nat_eq, slice_get};
ghost use Rattle.std.specs.List.{IsDistinct};
ghost use Rattle.rz_links.specs.declared.arena.Family.TheVariants.{Out, In};
ghost use Rattle.rz_aset.specs.Sets.{HasExactly, has, with_address, with_edge};
ghost use Rattle.rz_flow.specs.Flow.{IsReachedFrom, ReachesTo, far, neighbours};
ghost use Rattle.rz_flow.specs.Calls.Linked.{IsReached};

use rz_aset::{AddrSet, EdgeSet};
use rz_links::{Arena, Family};
use rz_num::{OutOfMemory, Words};
use std::alloc::Global;
use std::marker::Model;

/// A graph of addresses. Adding a node or an edge takes constant time on average, and what walks reach is found in time
/// linear in the nodes and edges. Each edge is a node of an arena, in the Out list of its source and the In list of its
/// target; a list has the number of its node, which is the place at which that node was added.
#[derive(Drop)]
pub struct Flow {
    nodes: AddrSet,
    edges: EdgeSet,
    arena: Box<Arena<(u64, u64)>>,
}

impl Model for Flow {
    ghost use Rattle.rz_flow.specs.Flow.{Flow};
    ghost use Rattle.rz_flow.specs.Calls.Linked.{IsLinked};

    ghost Value = { Flow };

    ghost view = { λ g. record { nodes = g.nodes; edges = g.edges } };

    ghost invariant = { λ g. IsLinked g.nodes g.edges g.arena.value };
}

impl Flow {
    /// The graph of no nodes. It refuses for want of memory alone.
    pub fn new(alloc: Global) -> Result<Flow, OutOfMemory>
        ensures { IfOk result (λ flow. flow ≡ record { nodes = []; edges = [] }) }
    {
        Ok(Flow {
            nodes: AddrSet::new(alloc),
            edges: EdgeSet::new(alloc),
            arena: Box::new(alloc, Arena::new(alloc, 0, 0)?)?,
        })
    }

    /// Adds a node; one that is there changes nothing. It refuses for want of memory alone, and then nothing changes.
    pub fn add_node(&mut self, at: u64) -> Result<(), OutOfMemory>
        ensures ok { OnOk result (self.new ≡ record self.old { nodes = with_address self.old.nodes at }) }
        ensures err { OnErr result (self.new ≡ self.old) }
    {
        if self.nodes.contains(at) {
            return Ok(());
        }
        self.arena.add_lists(1, 1)?;
        self.nodes.insert(at)?;
        Ok(())
    }

    /// Adds an edge between nodes; one that is there changes nothing. It refuses for want of memory alone, and then
    /// nothing changes.
    pub fn add_edge(&mut self, from: u64, to: u64) -> Result<(), OutOfMemory>
        requires from { IsTrue (has self.old.nodes from) }
        requires to { IsTrue (has self.old.nodes to) }
        ensures ok { OnOk result (self.new ≡ record self.old { edges = with_edge self.old.edges (from, to) }) }
        ensures err { OnErr result (self.new ≡ self.old) }
    {
        if self.edges.contains((from, to)) {
            return Ok(());
        }
        let source = number(&self.nodes, from);
        let target = number(&self.nodes, to);
        self.arena.reserve(1)?;
        self.edges.insert((from, to))?;
        self.arena.insert_back((from, to), source, target);
        Ok(())
    }

    /// Where the edges from a node lead, in the order in which they were added. It refuses for want of memory alone.
    pub fn out(&self, alloc: Global, from: u64) -> Result<Words, OutOfMemory>
        requires { IsTrue (has self.now.nodes from) }
        ensures all { IfOk result (λ found. found ≡ neighbours Out self.now.edges from) }
        ensures nodes { IfOk result (All (λ b. IsTrue (has self.now.nodes b))) }
    {
        Ok(Words::from_vec(self.neighbours(alloc, Family::Out, from)?))
    }

    /// Where the edges to a node come from, in the order in which they were added. It refuses for want of memory alone.
    pub fn into(&self, alloc: Global, to: u64) -> Result<Words, OutOfMemory>
        requires { IsTrue (has self.now.nodes to) }
        ensures all { IfOk result (λ found. found ≡ neighbours In self.now.edges to) }
        ensures nodes { IfOk result (All (λ a. IsTrue (has self.now.nodes a))) }
    {
        Ok(Words::from_vec(self.neighbours(alloc, Family::In, to)?))
    }

    /// The nodes that walks reach from the starts; a start that is a node reaches itself, and one that is none is
    /// passed over. It refuses for want of memory alone.
    pub fn reach_from(&self, alloc: Global, starts: &AddrSet) -> Result<AddrSet, OutOfMemory>
        ensures exact { IfOk result (λ found. HasExactly found (IsReachedFrom self.now starts.now)) }
        ensures nodes { IfOk result (All (λ b. IsTrue (has self.now.nodes b))) }
    {
        self.reach(alloc, Family::Out, starts)
    }

    /// The nodes from which walks reach the ends; an end that is a node reaches itself, and one that is none is
    /// passed over. It refuses for want of memory alone.
    pub fn reach_to(&self, alloc: Global, ends: &AddrSet) -> Result<AddrSet, OutOfMemory>
        ensures exact { IfOk result (λ found. HasExactly found (ReachesTo self.now ends.now)) }
        ensures nodes { IfOk result (All (λ a. IsTrue (has self.now.nodes a))) }
    {
        self.reach(alloc, Family::In, ends)
    }

    // Where the edges of a node lead; in the family In, where they come from.
    fn neighbours(&self, alloc: Global, family: Family, at: u64) -> Result<Vec<u64>, OutOfMemory>
        requires { IsTrue (has self.now.nodes at) }
        ensures all { IfOk result (λ found. found.items ≡ neighbours family self.now.edges at) }
        ensures nodes { IfOk result (λ found. All (λ b. IsTrue (has self.now.nodes b)) found.items) }
    {
        let mut found = Vec::new(alloc);
        let mut next = self.arena.first(family, number(&self.nodes, at));
        while let Some(edge) = next {
            found.push(far_end(family, *self.arena.value(edge)))?;
            next = self.arena.next(family, edge);
        }
        Ok(found)
    }

    // The nodes that walks reach along the edges; in the family In, against them. Found nodes are followed in the order
    // in which they were found.
    fn reach(&self, alloc: Global, family: Family, starts: &AddrSet) -> Result<AddrSet, OutOfMemory>
        ensures exact { IfOk result (λ found. HasExactly found (IsReached family self.now starts.now)) }
        ensures nodes { IfOk result (All (λ b. IsTrue (has self.now.nodes b))) }
    {
        let mut found = known(alloc, &self.nodes, starts)?;
        let mut followed = 0;
        while followed < found.len() {
            let at = found.as_slice()[followed];
            let next = self.neighbours(alloc, family, at)?;
            found.insert_all(&next)?;
            followed += 1;
        }
        Ok(found)
    }
}

// The place of an address in a set.
fn number(nodes: &AddrSet, at: u64) -> usize
    requires { IsTrue (has nodes.now at) }
    ensures number { slice_get nodes.now result ≡ Some at }
    ensures distinct { IsDistinct nat_eq nodes.now }
{
    nodes.place(at).unwrap()
}

// The addresses that two sets have.
fn known(alloc: Global, nodes: &AddrSet, starts: &AddrSet) -> Result<AddrSet, OutOfMemory>
    ensures { IfOk result (λ known. (b : ℕ) → has known b ≡ (has starts.now b && has nodes.now b)) }
{
    let mut known = AddrSet::new(alloc);
    for start in starts.as_slice() {
        if nodes.contains(*start) {
            known.insert(*start)?;
        }
    }
    Ok(known)
}

// The end of an edge at which it isn't in a list of the family.
fn far_end(family: Family, edge: (u64, u64)) -> u64
    ensures { result ≡ far family edge }
{
    match family {
        Family::Out => edge.1,
        Family::In => edge.0,
    }
}

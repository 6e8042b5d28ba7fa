// The edges that a level keeps.

ghost use Rattle.std.specs.Prelude.{◌≡◌, true, ◌&&◌, ◌↔◌, ℕ, IfOk, OnOk};
ghost use Rattle.rz_aset.specs.Sets.{has};
ghost use Rattle.rz_paths.specs.Sets.{In, joins};
ghost use Rattle.rz_paths.specs.Program.{direct_at, is_ret_at};
ghost use Rattle.rz_paths.specs.Returns.{is_first, IsReturnOf, IsReturn, IsKept};
ghost use Rattle.rz_paths.specs.Calls.Inside.{AddsReturns, IsGrouped, IsJoined, IsInside, is_along_at, over_call, calls_back, starts_at, touches};

use crate::node::Program;
use crate::search::link_all;
use crate::sets::{add, add_edges, add_edges_from, add_product, edge_union, link};
use crate::walks::is_ret;
use rz_aset::{AddrSet, EdgeSet};
use rz_flow::Flow;
use rz_isa::Kind;
use rz_num::OutOfMemory;
use std::alloc::Global;

/// The edges among the kept nodes: the recorded ones, the static ones, and those from returns. It refuses for want of
/// memory alone.
pub fn kept_edges<P: Program>(
    alloc: Global,
    program: &P,
    recorded: &EdgeSet,
    nodes: &AddrSet,
) -> Result<EdgeSet, OutOfMemory>
    requires { IsJoined nodes.now recorded.now }
    ensures { IfOk result (λ set. (a b : ℕ) →
        (joins set a b ≡ true) ↔ IsKept (P.code program.now) recorded.now nodes.now a b) }
{
    let first = first_edges(alloc, program, recorded, nodes)?;
    let kept = Kept {
        program,
        nodes,
        edges: &first,
    };
    let back = kept.return_edges(alloc)?;
    edge_union(alloc, &first, &back)
}

// The recorded edges, and the static ones among the nodes.
fn first_edges<P: Program>(
    alloc: Global,
    program: &P,
    recorded: &EdgeSet,
    nodes: &AddrSet,
) -> Result<EdgeSet, OutOfMemory>
    ensures { IfOk result (λ set. (a b : ℕ) →
        joins set a b ≡ is_first (P.code program.now) recorded.now nodes.now a b) }
{
    let mut set = EdgeSet::new(alloc);
    add_edges(&mut set, recorded.as_slice())?;
    for a in nodes.as_slice() {
        let found = kept_successors(alloc, program, nodes, *a)?;
        add_edges_from(&mut set, *a, &found)?;
    }
    Ok(set)
}

// The static successors of an address.
fn successors<P: Program>(alloc: Global, program: &P, at: u64) -> Result<Vec<u64>, OutOfMemory>
    ensures { IfOk result (λ list. list.items ≡ direct_at (P.code program.now) at) }
{
    match program.node_at(at) {
        Some(node) => node.successors(alloc),
        None => Ok(Vec::new(alloc)),
    }
}

// The static successors of an address that are kept.
fn kept_successors<P: Program>(
    alloc: Global,
    program: &P,
    nodes: &AddrSet,
    at: u64,
) -> Result<Vec<u64>, OutOfMemory>
    ensures { IfOk result (λ found. (b : ℕ) →
        has found.items b ≡ (has (direct_at (P.code program.now) at) b && has nodes.now b)) }
{
    let list = successors(alloc, program, at)?;
    kept_among(alloc, nodes, &list)
}

// Those of the addresses that are kept.
fn kept_among(alloc: Global, nodes: &AddrSet, list: &[u64]) -> Result<Vec<u64>, OutOfMemory>
    ensures { IfOk result (λ found. (b : ℕ) → has found.items b ≡ (has list.now b && has nodes.now b)) }
{
    let mut found = Vec::new(alloc);
    for b in list {
        if nodes.contains(*b) {
            found.push(*b)?;
        }
    }
    Ok(found)
}

// The kept nodes of a program, and the edges among them that aren't from returns.
#[derive(Drop)]
struct Kept<'a, P> {
    program: &'a P,
    nodes: &'a AddrSet,
    edges: &'a EdgeSet,
}

impl<P: Program> Kept<'_, P> {
    // The edges from kept returns to what follows the calls whose callees reach them: one search for each callee.
    fn return_edges(&self, alloc: Global) -> Result<EdgeSet, OutOfMemory>
        requires { IsJoined self.now.nodes.now self.now.edges.now }
        ensures { IfOk result (λ set. (x r : ℕ) → (joins set x r ≡ true)
            ↔ IsReturn (P.code self.now.program.now) self.now.nodes.now (joins self.now.edges.now) x r) }
    {
        let inside = self.inside_flow(alloc)?;
        let back = self.edges_back(alloc)?;
        self.returns_back(alloc, &inside, &back)
    }

    // The edges from kept returns, by the edges from callees to what follows their calls.
    fn returns_back(
        &self,
        alloc: Global,
        inside: &Flow,
        back: &EdgeSet,
    ) -> Result<EdgeSet, OutOfMemory>
        requires joined { IsJoined self.now.nodes.now self.now.edges.now }
        requires inside { IsInside (P.code self.now.program.now) self.now.nodes.now self.now.edges.now inside.now }
        requires back { (f r : ℕ) → joins back.now f r
            ≡ calls_back (P.code self.now.program.now) self.now.nodes.now self.now.edges.now f r }
        ensures { IfOk result (λ set. (x r : ℕ) → (joins set x r ≡ true)
            ↔ IsReturn (P.code self.now.program.now) self.now.nodes.now (joins self.now.edges.now) x r) }
    {
        let after = flow_of_edges(alloc, back)?;
        let callees = sources(alloc, back)?;
        self.returns_after(alloc, inside, &callees, &after)
    }

    // The edges from the kept returns that each of some callees reaches to what follows its calls.
    fn returns_after(
        &self,
        alloc: Global,
        inside: &Flow,
        callees: &AddrSet,
        after: &Flow,
    ) -> Result<EdgeSet, OutOfMemory>
        requires joined { IsJoined self.now.nodes.now self.now.edges.now }
        requires inside { IsInside (P.code self.now.program.now) self.now.nodes.now self.now.edges.now inside.now }
        requires grouped { IsGrouped (P.code self.now.program.now) self.now.nodes.now self.now.edges.now
            callees.now after.now }
        ensures { IfOk result (λ set. (x r : ℕ) → (joins set x r ≡ true)
            ↔ IsReturn (P.code self.now.program.now) self.now.nodes.now (joins self.now.edges.now) x r) }
    {
        let mut found = EdgeSet::new(alloc);
        for f in callees.as_slice() {
            self.add_returns(alloc, inside, after, *f, &mut found)?;
        }
        Ok(found)
    }

    // Adds the edges from the kept returns that a callee reaches to what follows its calls.
    fn add_returns(
        &self,
        alloc: Global,
        inside: &Flow,
        after: &Flow,
        callee: u64,
        found: &mut EdgeSet,
    ) -> Result<(), OutOfMemory>
        requires joined { IsJoined self.now.nodes.now self.now.edges.now }
        requires inside { IsInside (P.code self.now.program.now) self.now.nodes.now self.now.edges.now inside.now }
        requires kept { In self.now.nodes.now callee }
        requires known { In after.now.nodes callee }
        ensures { OnOk result
            (AddsReturns (P.code self.now.program.now) self.now.nodes.now self.now.edges.now
            after.now.edges callee found.old found.new) }
    {
        let returns = self.returns_of(alloc, inside, callee)?;
        let next = after.out(alloc, callee)?;
        add_product(found, &returns, next.as_slice())?;
        Ok(())
    }

    // The graph of the steps inside functions.
    fn inside_flow(&self, alloc: Global) -> Result<Flow, OutOfMemory>
        ensures { IfOk result
            (IsInside (P.code self.now.program.now) self.now.nodes.now self.now.edges.now) }
    {
        let mut flow = flow_along(alloc, self.program, self.edges)?;
        for a in self.nodes.as_slice() {
            let next = self.after_call(alloc, *a)?;
            link_all(&mut flow, *a, &next)?;
        }
        Ok(flow)
    }

    // What follows the call at an address, if it is kept.
    fn after_call(&self, alloc: Global, at: u64) -> Result<Vec<u64>, OutOfMemory>
        ensures { IfOk result (λ found. (r : ℕ) →
            has found.items r ≡ over_call (P.code self.now.program.now) self.now.nodes.now at r) }
    {
        let mut found = Vec::new(alloc);
        if let Some(node) = self.program.node_at(at) {
            if matches!(node.kind, Kind::Call | Kind::CallInd) && self.nodes.contains(node.next) {
                found.push(node.next)?;
            }
        }
        Ok(found)
    }

    // The edges from what kept calls lead to, to what follows the calls.
    fn edges_back(&self, alloc: Global) -> Result<EdgeSet, OutOfMemory>
        ensures { IfOk result (λ set. (f r : ℕ) → joins set f r
            ≡ calls_back (P.code self.now.program.now) self.now.nodes.now self.now.edges.now f r) }
    {
        let mut back = EdgeSet::new(alloc);
        for edge in self.edges.as_slice() {
            let next = self.after_call(alloc, edge.0)?;
            add_edges_from(&mut back, edge.1, &next)?;
        }
        Ok(back)
    }

    // The kept returns that are reached from a kept address inside a function.
    fn returns_of(&self, alloc: Global, inside: &Flow, from: u64) -> Result<Vec<u64>, OutOfMemory>
        requires joined { IsJoined self.now.nodes.now self.now.edges.now }
        requires inside { IsInside (P.code self.now.program.now) self.now.nodes.now self.now.edges.now inside.now }
        requires from { In self.now.nodes.now from }
        ensures { IfOk result (λ list. (x : ℕ) → In list.items x
            ↔ IsReturnOf (P.code self.now.program.now) self.now.nodes.now (joins self.now.edges.now) from x) }
    {
        let mut start = AddrSet::new(alloc);
        add(&mut start, from)?;
        let reached = inside.reach_from(alloc, &start)?;
        self.kept_returns(alloc, reached.as_slice())
    }

    // Those of the addresses where kept returns stand.
    fn kept_returns(&self, alloc: Global, list: &[u64]) -> Result<Vec<u64>, OutOfMemory>
        ensures { IfOk result (λ found. (x : ℕ) → has found.items x ≡ (has list.now x
            && (is_ret_at (P.code self.now.program.now) x && has self.now.nodes.now x))) }
    {
        let mut found = Vec::new(alloc);
        for x in list {
            if is_ret(self.program, *x) && self.nodes.contains(*x) {
                found.push(*x)?;
            }
        }
        Ok(found)
    }
}

// The graph of the edges that are followed inside functions.
fn flow_along<P: Program>(alloc: Global, program: &P, edges: &EdgeSet) -> Result<Flow, OutOfMemory>
    ensures { IfOk result (λ flow. (a b : ℕ) →
        joins flow.edges a b ≡ (joins edges.now a b && is_along_at (P.code program.now) a)) }
{
    let mut flow = Flow::new(alloc)?;
    for edge in edges.as_slice() {
        if is_along(program, edge.0) {
            link(&mut flow, edge.0, edge.1)?;
        }
    }
    Ok(flow)
}

// Whether the edges from an address are followed inside a function.
fn is_along<P: Program>(program: &P, at: u64) -> bool
    ensures { result ≡ is_along_at (P.code program.now) at }
{
    match program.node_at(at) {
        Some(node) => !matches!(node.kind, Kind::Call | Kind::CallInd | Kind::Ret),
        None => false,
    }
}

// The graph of some edges.
fn flow_of_edges(alloc: Global, edges: &EdgeSet) -> Result<Flow, OutOfMemory>
    ensures nodes { IfOk result (λ flow. (a : ℕ) → has flow.nodes a ≡ touches edges.now a) }
    ensures edges { IfOk result (λ flow. (a b : ℕ) → joins flow.edges a b ≡ joins edges.now a b) }
{
    let mut flow = Flow::new(alloc)?;
    for edge in edges.as_slice() {
        link(&mut flow, edge.0, edge.1)?;
    }
    Ok(flow)
}

// The addresses where edges begin.
fn sources(alloc: Global, edges: &EdgeSet) -> Result<AddrSet, OutOfMemory>
    ensures { IfOk result (λ set. (a : ℕ) → has set a ≡ starts_at edges.now a) }
{
    let mut set = AddrSet::new(alloc);
    for edge in edges.as_slice() {
        add(&mut set, edge.0)?;
    }
    Ok(set)
}

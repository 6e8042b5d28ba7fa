// What no clause says: that the calls that take memory succeed, and that walks along a long chain are followed.

ghost use Rattle.std.specs.Prelude.{◌≡◌, OnOk};

use rz_aset::AddrSet;
use rz_flow::Flow;
use rz_num::{OutOfMemory, Words};
use std::alloc::{AllocGlobal, Global};
use std::process::Abort;

// The graph of these nodes, and of edges between them.
fn graph(
    rt: &impl Abort,
    alloc: Global,
    nodes: &[u64],
    edges: &[(u64, u64)],
) -> Result<Flow, OutOfMemory> {
    let mut flow = Flow::new(alloc)?;
    let mut known = AddrSet::new(alloc);
    add_all(&mut flow, &mut known, nodes)?;
    link_all(rt, &mut flow, &known, edges)?;
    Ok(flow)
}

fn add_all(flow: &mut Flow, known: &mut AddrSet, nodes: &[u64]) -> Result<(), OutOfMemory>
    requires { flow.old.nodes ≡ known.old }
    ensures { OnOk result (flow.new.nodes ≡ known.new) }
{
    for at in nodes {
        flow.add_node(*at)?;
        known.insert(*at)?;
    }
    Ok(())
}

fn link_all(
    rt: &impl Abort,
    flow: &mut Flow,
    known: &AddrSet,
    edges: &[(u64, u64)],
) -> Result<(), OutOfMemory>
    requires { flow.old.nodes ≡ known.now }
{
    for (from, to) in edges {
        link(rt, flow, known, *from, *to)?;
    }
    Ok(())
}

fn link(
    rt: &impl Abort,
    flow: &mut Flow,
    known: &AddrSet,
    from: u64,
    to: u64,
) -> Result<(), OutOfMemory>
    requires { flow.old.nodes ≡ known.now }
    ensures { OnOk result (flow.new.nodes ≡ known.now) }
{
    assert!(rt; known.contains(from));
    assert!(rt; known.contains(to));
    flow.add_edge(from, to)
}

fn pair(alloc: Global, a: u64, b: u64) -> Result<AddrSet, OutOfMemory> {
    let mut set = AddrSet::new(alloc);
    set.insert(a)?;
    set.insert(b)?;
    Ok(set)
}

// What is reached from two starts, in ascending order.
fn reached(alloc: Global, flow: &Flow, starts: (u64, u64)) -> Result<Words, OutOfMemory> {
    let set = pair(alloc, starts.0, starts.1)?;
    flow.reach_from(alloc, &set)?.sorted(alloc)
}

// What reaches two ends, in ascending order.
fn reaching(alloc: Global, flow: &Flow, ends: (u64, u64)) -> Result<Words, OutOfMemory> {
    let set = pair(alloc, ends.0, ends.1)?;
    flow.reach_to(alloc, &set)?.sorted(alloc)
}

// A loop of 1, 2 and 3, two paths from 3 to 6, a way in from 8, and 7 alone; 99 is no node.
fn worked(rt: &impl Abort, alloc: Global) -> Result<Flow, OutOfMemory> {
    let nodes = [1, 2, 3, 4, 5, 6, 7, 8, 1];
    let edges = [
        (1, 2),
        (2, 3),
        (3, 1),
        (3, 4),
        (4, 6),
        (3, 5),
        (5, 6),
        (8, 1),
        (1, 2),
    ];
    graph(rt, alloc, &nodes, &edges)
}

// Asserts what is reached from a node, and what reaches it.
fn assert_reach(
    rt: &(impl Abort + AllocGlobal),
    flow: &Flow,
    at: u64,
    after: &[u64],
    before: &[u64],
) -> Result<(), OutOfMemory> {
    assert_eq!(rt; reached(rt.alloc(), flow, (99, at))?.as_slice(), after);
    assert_eq!(rt; reaching(rt.alloc(), flow, (at, 99))?.as_slice(), before);
    Ok(())
}

// A node of the worked graph, what is reached from it, and what reaches it.
const REACHES: [(u64, &[u64], &[u64]); 5] = [
    (1, &[1, 2, 3, 4, 5, 6], &[1, 2, 3, 8]),
    (4, &[4, 6], &[1, 2, 3, 4, 8]),
    (6, &[6], &[1, 2, 3, 4, 5, 6, 8]),
    (7, &[7], &[7]),
    (99, &[], &[]),
];

fn assert_reaches(rt: &(impl Abort + AllocGlobal), flow: &Flow) -> Result<(), OutOfMemory> {
    for (at, after, before) in &REACHES {
        assert_reach(rt, flow, *at, after, before)?;
    }
    Ok(())
}

#[test]
fn reaches_along_loops_and_paths(rt: HostRuntime) -> Result<(), std::test::Fail> {
    let flow = worked(&rt, rt.alloc())?;
    assert_reaches(&rt, &flow)?;
    Ok(())
}

// The nodes below a number, and an edge from each to the next.
fn chain(rt: &impl Abort, alloc: Global, count: u64) -> Result<Flow, OutOfMemory> {
    let nodes: Vec<u64> = (0..count).collect(alloc)?;
    let edges: Vec<(u64, u64)> = (1..count).map(|k| (k - 1, k)).collect(alloc)?;
    graph(rt, alloc, &nodes, &edges)
}

fn assert_lengths(
    rt: &(impl Abort + AllocGlobal),
    flow: &Flow,
    last: u64,
    len: usize,
) -> Result<(), OutOfMemory> {
    assert_eq!(rt; reached(rt.alloc(), flow, (0, 0))?.as_slice().len(), len);
    assert_eq!(rt;
        reaching(rt.alloc(), flow, (last, last))?.as_slice().len(),
        len
    );
    Ok(())
}

#[test]
fn follows_a_long_chain(rt: HostRuntime) -> Result<(), std::test::Fail> {
    let flow = chain(&rt, rt.alloc(), 400_000)?;
    assert_lengths(&rt, &flow, 399_999, 400_000)?;
    Ok(())
}

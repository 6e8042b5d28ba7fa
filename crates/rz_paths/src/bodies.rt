// The nodes that calls bring in with their functions.

ghost use Rattle.std.specs.Prelude.{◌≡◌, ◌&&◌, nat_eq, true, ℕ, IfOk, OnOk};
ghost use Rattle.rz_aset.specs.Sets.{HasExactly, has, with_addresses};
ghost use Rattle.rz_paths.specs.Bodies.{is_inner_at, inner_next_at, is_in, function_at, calls, InBody, InFunctions};
ghost use Rattle.rz_paths.specs.Calls.Brought.{called_among, InBrought};

use crate::node::{Node, Program};
use crate::search::{Successors, reach};
use crate::sets::{add_all, union};
use crate::walks::{is_outside, is_passing, walk_nodes};
use rz_aset::AddrSet;
use rz_classes::Classes;
use rz_isa::Kind;
use rz_num::OutOfMemory;
use std::alloc::Global;

/// The recorded nodes, those of walks, and the bodies of the functions that calls outside the recorded nodes bring in.
/// It refuses for want of memory alone.
pub fn function_nodes<P: Program>(
    alloc: Global,
    program: &P,
    passing: &AddrSet,
    classes: &Classes,
    recorded: &AddrSet,
) -> Result<AddrSet, OutOfMemory>
    ensures { IfOk result (λ set.
        HasExactly set (InFunctions (P.code program.now) (has passing.now) classes.now recorded.now)) }
{
    let walks = walk_nodes(alloc, program, passing, recorded)?;
    let bodies = bodies_from(alloc, program, passing, classes, recorded, &walks)?;
    let most = union(alloc, &walks, &bodies)?;
    union(alloc, recorded, &most)
}

// The bodies of the functions that calls at some nodes call, and of those that calls in such bodies call, each function
// once.
fn bodies_from<P: Program>(
    alloc: Global,
    program: &P,
    passing: &AddrSet,
    classes: &Classes,
    recorded: &AddrSet,
    walks: &AddrSet,
) -> Result<AddrSet, OutOfMemory>
    ensures { IfOk result (λ set.
        HasExactly set
        (InBrought (P.code program.now) (has passing.now) classes.now recorded.now walks.now)) }
{
    let mut bodies = AddrSet::new(alloc);
    let mut starts = AddrSet::new(alloc);
    let first = callees(alloc, program, passing, recorded, walks.as_slice())?;
    starts.insert_all(&first)?;
    let mut followed = 0;
    while followed < starts.len() {
        let start = starts.as_slice()[followed];
        let body = body_of(alloc, program, passing, classes, start)?;
        let called = callees(alloc, program, passing, recorded, body.as_slice())?;
        add_set(&mut bodies, body)?;
        starts.insert_all(&called)?;
        followed += 1;
    }
    Ok(bodies)
}

// Adds the members of a set, which is used up.
fn add_set(to: &mut AddrSet, from: AddrSet) -> Result<(), OutOfMemory>
    ensures { OnOk result (to.new ≡ with_addresses to.old from) }
{
    to.insert_all(from.as_slice())
}

// The body of the listed function that starts at an address.
fn body_of<P: Program>(
    alloc: Global,
    program: &P,
    passing: &AddrSet,
    classes: &Classes,
    start: u64,
) -> Result<AddrSet, OutOfMemory>
    ensures { IfOk result (λ set.
        HasExactly set (InBody (P.code program.now) (has passing.now) classes.now start)) }
{
    let first = inner_start(alloc, program, passing, start)?;
    let graph = BodyGraph {
        program,
        passing,
        classes,
        start,
    };
    reach(alloc, &graph, &first)
}

// The start of a function, where its body may hold it.
fn inner_start<P: Program>(
    alloc: Global,
    program: &P,
    passing: &AddrSet,
    start: u64,
) -> Result<Vec<u64>, OutOfMemory>
    ensures { IfOk result (λ list. (a : ℕ) → has list.items a
        ≡ (nat_eq a start && is_inner_at (P.code program.now) (has passing.now) start)) }
{
    let mut list = Vec::new(alloc);
    if is_inner(program, passing, start) {
        list.push(start)?;
    }
    Ok(list)
}

// Whether a body may hold the node at an address.
fn is_inner<P: Program>(program: &P, passing: &AddrSet, at: u64) -> bool
    ensures { result ≡ is_inner_at (P.code program.now) (has passing.now) at }
{
    match program.node_at(at) {
        None => false,
        Some(node) => match node.kind {
            Kind::Call => is_passing(passing, node.target),
            Kind::Ret | Kind::Syscall => true,
            _ => node.is_free(),
        },
    }
}

// Where a body goes on to from an address.
fn inner_next<P: Program>(alloc: Global, program: &P, at: u64) -> Result<Vec<u64>, OutOfMemory>
    ensures { IfOk result (λ list. list.items ≡ inner_next_at (P.code program.now) at) }
{
    match program.node_at(at) {
        None => Ok(Vec::new(alloc)),
        Some(node) => match node.kind {
            Kind::Call => Ok(vec![in alloc; node.next]?),
            Kind::Ret => Ok(Vec::new(alloc)),
            _ => node.successors(alloc),
        },
    }
}

// The graph in which the body of a function is searched.
#[derive(Drop)]
struct BodyGraph<'a, P> {
    program: &'a P,
    passing: &'a AddrSet,
    classes: &'a Classes,
    start: u64,
}

impl<P: Program> Successors for BodyGraph<'_, P> {
    ghost use Rattle.rz_paths.specs.Bodies.{body_leads, function_at};

    ghost leads = { λ s.
        body_leads (P.code s.program.now) (has s.passing.now) (function_at s.classes.now s.start) };

    fn successors(&self, alloc: Global, a: u64) -> Result<Vec<u64>, OutOfMemory> {
        let list = inner_next(alloc, self.program, a)?;
        members(
            alloc,
            self.program,
            self.passing,
            self.classes,
            self.start,
            &list,
        )
    }
}

// Those of the addresses that may be members of the body of a function.
fn members<P: Program>(
    alloc: Global,
    program: &P,
    passing: &AddrSet,
    classes: &Classes,
    start: u64,
    list: &[u64],
) -> Result<Vec<u64>, OutOfMemory>
    ensures { IfOk result (λ found. (b : ℕ) → has found.items b
        ≡ (has list.now b
        && (is_inner_at (P.code program.now) (has passing.now) b && is_in (function_at classes.now start) b))) }
{
    let mut found = Vec::new(alloc);
    for b in list {
        if is_inner(program, passing, *b) && is_inside(classes, start, *b) {
            found.push(*b)?;
        }
    }
    Ok(found)
}

// Whether an address is in the range of the listed function that starts at another.
fn is_inside(classes: &Classes, start: u64, at: u64) -> bool
    ensures { result ≡ is_in (function_at classes.now start) at }
{
    match classes.starts_at(start) {
        None => false,
        Some(place) => {
            let (lo, hi) = classes.range(place);
            lo <= at && at < hi
        }
    }
}

// The function that a passing call at an address calls, where the call wasn't recorded.
fn callee<P: Program>(
    alloc: Global,
    program: &P,
    passing: &AddrSet,
    recorded: &AddrSet,
    at: u64,
) -> Result<Vec<u64>, OutOfMemory>
    ensures { IfOk result (λ found. (f : ℕ) →
        has found.items f ≡ calls (P.code program.now) (has passing.now) recorded.now at f) }
{
    let mut found = Vec::new(alloc);
    if is_outside(program, recorded, at) {
        if let Some(
            Node {
                kind: Kind::Call,
                target: Some(target),
                ..
            },
        ) = program.node_at(at)
        {
            if passing.contains(target) {
                found.push(target)?;
            }
        }
    }
    Ok(found)
}

// The functions that passing calls among some addresses call.
fn callees<P: Program>(
    alloc: Global,
    program: &P,
    passing: &AddrSet,
    recorded: &AddrSet,
    list: &[u64],
) -> Result<Vec<u64>, OutOfMemory>
    ensures { IfOk result (λ found. (f : ℕ) → has found.items f
        ≡ called_among (P.code program.now) (has passing.now) recorded.now list.now f) }
{
    let mut found = Vec::new(alloc);
    for c in list {
        let called = callee(alloc, program, passing, recorded, *c)?;
        found.extend_from_slice(&called)?;
    }
    Ok(found)
}

// The nodes of walks.

ghost use Rattle.std.specs.Prelude.{◌≡◌, ◌&&◌, ℕ, IfOk, if◌then◌else◌, []};
ghost use Rattle.std.specs.List.{list_any};
ghost use Rattle.rz_aset.specs.Sets.{HasExactly, has};
ghost use Rattle.rz_paths.specs.Program.{direct_at, is_branch_at, is_ret_at};
ghost use Rattle.rz_paths.specs.Walks.{onward_at, is_outside as outside_at, begins, ends, is_passing as passes, OnWalk};

use crate::node::Program;
use crate::search::{Successors, flow_of, reach};
use crate::sets::add;
use rz_aset::AddrSet;
use rz_isa::Kind;
use rz_num::OutOfMemory;
use std::alloc::Global;

/// The nodes of walks, beside the recorded ones, where calls of the passing targets may be stepped over. It refuses for
/// want of memory alone.
pub fn walk_nodes<P: Program>(
    alloc: Global,
    program: &P,
    passing: &AddrSet,
    recorded: &AddrSet,
) -> Result<AddrSet, OutOfMemory>
    ensures { IfOk result (λ set.
        HasExactly set (OnWalk (P.code program.now) (has passing.now) recorded.now)) }
{
    let graph = WalkGraph {
        program,
        passing,
        recorded,
    };
    let first = beginnings(alloc, program, recorded)?;
    let ahead = reach(alloc, &graph, &first)?;
    let last = endings(alloc, program, passing, recorded, ahead.as_slice())?;
    let flow = flow_of(alloc, &graph, ahead.as_slice())?;
    flow.reach_to(alloc, &last)
}

// The graph that walks go through.
#[derive(Drop)]
struct WalkGraph<'a, P> {
    program: &'a P,
    passing: &'a AddrSet,
    recorded: &'a AddrSet,
}

impl<P: Program> Successors for WalkGraph<'_, P> {
    ghost leads = { λ s a b.
        has (onward_at (P.code s.program.now) (has s.passing.now) a) b
        && outside_at (P.code s.program.now) s.recorded.now b };

    fn successors(&self, alloc: Global, a: u64) -> Result<Vec<u64>, OutOfMemory> {
        let ahead = onward(alloc, self.program, self.passing, a)?;
        outside(alloc, self.program, self.recorded, &ahead)
    }
}

// Whether a call of the target may be stepped over.
pub fn is_passing(passing: &AddrSet, target: Option<u64>) -> bool
    ensures { result ≡ passes (has passing.now) target }
{
    match target {
        Some(target) => passing.contains(target),
        None => false,
    }
}

// Where a walk goes on to from an address.
fn onward<P: Program>(
    alloc: Global,
    program: &P,
    passing: &AddrSet,
    at: u64,
) -> Result<Vec<u64>, OutOfMemory>
    ensures { IfOk result (λ list. list.items ≡ onward_at (P.code program.now) (has passing.now) at) }
{
    let Some(node) = program.node_at(at) else {
        return Ok(Vec::new(alloc));
    };
    if let Kind::Call = node.kind {
        if is_passing(passing, node.target) {
            return Ok(vec![in alloc; node.next]?);
        }
        return Ok(Vec::new(alloc));
    }
    if node.is_free() {
        return node.successors(alloc);
    }
    Ok(Vec::new(alloc))
}

// Whether a node that wasn't recorded stands at an address.
pub fn is_outside<P: Program>(program: &P, recorded: &AddrSet, at: u64) -> bool
    ensures { result ≡ outside_at (P.code program.now) recorded.now at }
{
    program.node_at(at).is_some() && !recorded.contains(at)
}

// Those of the addresses where nodes stand that weren't recorded.
fn outside<P: Program>(
    alloc: Global,
    program: &P,
    recorded: &AddrSet,
    list: &[u64],
) -> Result<Vec<u64>, OutOfMemory>
    ensures { IfOk result (λ found. (b : ℕ) →
        has found.items b ≡ (has list.now b && outside_at (P.code program.now) recorded.now b)) }
{
    let mut found = Vec::new(alloc);
    for b in list {
        if is_outside(program, recorded, *b) {
            found.push(*b)?;
        }
    }
    Ok(found)
}

// Whether a return stands at an address.
pub fn is_ret<P: Program>(program: &P, at: u64) -> bool
    ensures { result ≡ is_ret_at (P.code program.now) at }
{
    match program.node_at(at) {
        Some(node) => node.is_ret(),
        None => false,
    }
}

// Whether a walk may end at an address.
fn is_end<P: Program>(
    alloc: Global,
    program: &P,
    passing: &AddrSet,
    recorded: &AddrSet,
    at: u64,
) -> Result<bool, OutOfMemory>
    ensures { IfOk result (λ end. end ≡ ends (P.code program.now) (has passing.now) recorded.now at) }
{
    if is_ret(program, at) {
        return Ok(true);
    }
    let ahead = onward(alloc, program, passing, at)?;
    Ok(meets(recorded, &ahead))
}

// Whether one of the addresses was recorded.
fn meets(recorded: &AddrSet, list: &[u64]) -> bool
    ensures { result ≡ list_any (has recorded.now) list.now }
{
    list.iter().any(|b| recorded.contains(*b))
}

// Those of the addresses where a walk may end.
fn endings<P: Program>(
    alloc: Global,
    program: &P,
    passing: &AddrSet,
    recorded: &AddrSet,
    list: &[u64],
) -> Result<AddrSet, OutOfMemory>
    ensures { IfOk result (λ found. (a : ℕ) →
        has found a ≡ (has list.now a && ends (P.code program.now) (has passing.now) recorded.now a)) }
{
    let mut found = AddrSet::new(alloc);
    for a in list {
        if is_end(alloc, program, passing, recorded, *a)? {
            add(&mut found, *a)?;
        }
    }
    Ok(found)
}

// The successors of a branch; none of another instruction.
fn branch_successors<P: Program>(
    alloc: Global,
    program: &P,
    at: u64,
) -> Result<Vec<u64>, OutOfMemory>
    ensures { IfOk result (λ list.
        list.items
        ≡ (if is_branch_at (P.code program.now) at then direct_at (P.code program.now) at else [])) }
{
    match program.node_at(at) {
        Some(node) if node.is_branch() => node.successors(alloc),
        _ => Ok(Vec::new(alloc)),
    }
}

// The addresses where walks may begin.
fn beginnings<P: Program>(
    alloc: Global,
    program: &P,
    recorded: &AddrSet,
) -> Result<Vec<u64>, OutOfMemory>
    ensures { IfOk result (λ found. (a : ℕ) →
        has found.items a
        ≡ (begins (P.code program.now) recorded.now a && outside_at (P.code program.now) recorded.now a)) }
{
    let mut found = Vec::new(alloc);
    for j in recorded.as_slice() {
        let list = branch_successors(alloc, program, *j)?;
        found.extend_from_slice(&list)?;
    }
    outside(alloc, program, recorded, &found)
}

// What no clause says: that the calls that take memory succeed; and the order of lists of three nodes as one of them is
// moved, unlinked or followed by a new one.

ghost use Rattle.std.specs.Prelude.{◌≡◌, ◌<◌, IfOk, length};
ghost use Rattle.rz_links.specs.Arena.{lists_of};

use rz_links::{Arena, Family};
use rz_num::OutOfMemory;
use std::alloc::{AllocGlobal, Global};
use std::process::Abort;

// Nodes 0, 1 and 2 in list 0 of each family, which has a list 1 too, with room for a node more.
fn three(alloc: Global) -> Result<Arena<u8>, OutOfMemory>
    ensures outs { IfOk result (λ arena. length arena.outs ≡ 2) }
    ensures ins { IfOk result (λ arena. length arena.ins ≡ 2) }
    ensures values { IfOk result (λ arena. length arena.values ≡ 3) }
    ensures spare { IfOk result (λ arena. 0 < arena.spare) }
{
    let mut arena = Arena::new(alloc, 1, 1)?;
    arena.add_lists(1, 1)?;
    arena.reserve(4)?;
    arena.insert_back(b'a', 0, 0);
    arena.insert_back(b'b', 0, 0);
    arena.insert_back(b'c', 0, 0);
    Ok(arena)
}

// The nodes of a list in order, of which there are at most four, and whether each leads back to the one before.
fn order(
    rt: &impl Abort,
    alloc: Global,
    arena: &Arena<u8>,
    family: Family,
    list: usize,
    nodes: usize,
) -> Result<Vec<usize>, OutOfMemory>
    requires list { list < length (lists_of arena.now family) }
    requires nodes { nodes ≡ length arena.now.values }
{
    let mut found = Vec::new(alloc);
    let mut last = None;
    let mut at = arena.first(family, list);
    for _ in 0..4 {
        let Some(node) = at else { break };
        assert!(rt; node < nodes);
        assert_eq!(rt; arena.prev(family, node), last);
        found.push(node)?;
        last = at;
        at = arena.next(family, node);
    }
    Ok(found)
}

// Asserts that a list has these nodes in order.
fn assert_order(
    rt: &(impl Abort + AllocGlobal),
    arena: &Arena<u8>,
    family: Family,
    list: usize,
    nodes: usize,
    expected: &[usize],
) -> Result<(), OutOfMemory>
    requires list { list < length (lists_of arena.now family) }
    requires nodes { nodes ≡ length arena.now.values }
{
    let found = order(rt, rt.alloc(), arena, family, list, nodes)?;
    assert_eq!(rt; found.as_slice(), expected);
    Ok(())
}

// One of three nodes goes to the back of its In list, which is then in this order.
fn move_one(
    rt: &(impl Abort + AllocGlobal),
    node: usize,
    moved: &[usize],
) -> Result<(), OutOfMemory>
    requires { node < 3 }
{
    let mut arena = three(rt.alloc())?;
    arena.move_back(node, Family::In, 0);
    assert_order(rt, &arena, Family::Out, 0, 3, &[0, 1, 2])?;
    assert_order(rt, &arena, Family::In, 0, 3, moved)
}

#[test]
fn moves_to_the_back(rt: HostRuntime) -> Result<(), std::test::Fail> {
    move_one(&rt, 0, &[1, 2, 0])?;
    move_one(&rt, 1, &[0, 2, 1])?;
    move_one(&rt, 2, &[0, 1, 2])?;
    Ok(())
}

// One of three nodes leaves its lists, of which the one in which it stood alone is empty then.
fn unlink_one(
    rt: &(impl Abort + AllocGlobal),
    node: usize,
    left: &[usize],
) -> Result<(), OutOfMemory>
    requires { node < 3 }
{
    let mut arena = three(rt.alloc())?;
    arena.move_back(node, Family::In, 1);
    assert_order(rt, &arena, Family::In, 1, 3, &[node])?;
    arena.unlink(node);
    assert_eq!(rt; arena.first(Family::In, 1), None);
    assert_order(rt, &arena, Family::Out, 0, 3, left)?;
    assert_order(rt, &arena, Family::In, 0, 3, left)
}

// The node is first, in the middle and last of the lists that it leaves.
#[test]
fn leaves_lists(rt: HostRuntime) -> Result<(), std::test::Fail> {
    unlink_one(&rt, 0, &[1, 2])?;
    unlink_one(&rt, 1, &[0, 2])?;
    unlink_one(&rt, 2, &[0, 1])?;
    Ok(())
}

// A new node follows one of three in its Out list.
fn insert_one(
    rt: &(impl Abort + AllocGlobal),
    node: usize,
    more: &[usize],
) -> Result<(), OutOfMemory>
    requires { node < 3 }
{
    let mut arena = three(rt.alloc())?;
    let new = arena.insert_after(b'd', node, 1);
    assert_eq!(rt; *arena.value(new), b'd');
    assert_order(rt, &arena, Family::Out, 0, 4, more)?;
    assert_order(rt, &arena, Family::In, 1, 4, &[new])
}

#[test]
fn inserts_after(rt: HostRuntime) -> Result<(), std::test::Fail> {
    insert_one(&rt, 0, &[0, 3, 1, 2])?;
    insert_one(&rt, 1, &[0, 1, 3, 2])?;
    insert_one(&rt, 2, &[0, 1, 2, 3])?;
    Ok(())
}

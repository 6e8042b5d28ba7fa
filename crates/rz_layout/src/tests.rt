//! Worked layouts of pieces, with places and lengths counted by hand.

use crate::fit::{are_low, have_labels};
use crate::piece::Piece;
use crate::sizes::{least_forms, places_of};
use rz_isa::Form;
use rz_num::{OutOfMemory, Words};
use std::alloc::Global;
use std::process::Abort;
use std::test::Fail;

// A jump with no condition to the piece of a number.
fn jump(to: usize) -> Piece {
    Piece::Jump { cond: false, to }
}

// Adds as many instructions of one byte.
fn push_nops(pieces: &mut Vec<Piece>, count: usize) -> Result<(), OutOfMemory> {
    for _ in 0..count {
        pieces.push(Piece::Fixed(1))?;
    }
    Ok(())
}

// The places from 0x10000 on, the last one that of a piece without bytes behind the pieces.
fn places(
    rt: &impl Abort,
    alloc: Global,
    pieces: &mut Vec<Piece>,
) -> Result<(Vec<Form>, Words), OutOfMemory> {
    pieces.push(Piece::Fixed(0))?;
    let pieces = pieces.as_slice();
    assert!(rt; have_labels(pieces));
    assert!(rt; are_low(pieces, 0x10000));
    let forms = least_forms(alloc, pieces)?;
    let places = places_of(alloc, pieces, forms.as_slice(), 0x10000)?;
    Ok((forms, places))
}

// A jump over so many bytes to a jump back.
fn there_and_back(alloc: Global, between: usize) -> Result<Vec<Piece>, OutOfMemory> {
    let mut pieces = vec![in alloc; jump(between.wrapping_add(1))]?;
    push_nops(&mut pieces, between)?;
    pieces.push(jump(0))?;
    Ok(pieces)
}

// A jump over 125 bytes and a jump, which itself leads over so many bytes.
fn one_over_another(alloc: Global, second: usize) -> Result<Vec<Piece>, OutOfMemory> {
    let mut pieces = vec![in alloc; jump(127)]?;
    push_nops(&mut pieces, 125)?;
    pieces.push(jump(second.wrapping_add(127)))?;
    push_nops(&mut pieces, second)?;
    pieces.push(Piece::Fixed(1))?;
    Ok(pieces)
}

#[test]
fn a_jump_over_127_bytes_is_short(rt: HostRuntime) -> Result<(), Fail> {
    let mut pieces = there_and_back(rt.alloc(), 127)?;
    let (_, places) = places(&rt, rt.alloc(), &mut pieces)?;
    assert_eq!(rt; places.as_slice().get(1).copied(), Some(0x10002));
    assert_eq!(rt; places.as_slice().get(128).copied(), Some(0x10081));
    assert_eq!(rt; places.as_slice().last().copied(), Some(0x10086));
    Ok(())
}

#[test]
fn a_jump_over_128_bytes_is_near(rt: HostRuntime) -> Result<(), Fail> {
    let mut pieces = there_and_back(rt.alloc(), 128)?;
    let (_, places) = places(&rt, rt.alloc(), &mut pieces)?;
    assert_eq!(rt; places.as_slice().get(1).copied(), Some(0x10005));
    assert_eq!(rt; places.as_slice().get(129).copied(), Some(0x10085));
    assert_eq!(rt; places.as_slice().last().copied(), Some(0x1008a));
    Ok(())
}

#[test]
fn a_near_jump_pushes_another_too_far(rt: HostRuntime) -> Result<(), Fail> {
    let mut pieces = one_over_another(rt.alloc(), 200)?;
    let (_, places) = places(&rt, rt.alloc(), &mut pieces)?;
    assert_eq!(rt; places.as_slice().get(1).copied(), Some(0x10005));
    assert_eq!(rt; places.as_slice().last().copied(), Some(0x10150));
    Ok(())
}

#[test]
fn both_are_short_over_less(rt: HostRuntime) -> Result<(), Fail> {
    let mut pieces = one_over_another(rt.alloc(), 100)?;
    let (_, places) = places(&rt, rt.alloc(), &mut pieces)?;
    assert_eq!(rt; places.as_slice().get(1).copied(), Some(0x10002));
    assert_eq!(rt; places.as_slice().last().copied(), Some(0x100e6));
    Ok(())
}

// 200,000 pieces, where each jump leads over 99 others, half of them jumps: 43 jumps at the end are short.
#[test]
fn many_pieces(rt: HostRuntime) -> Result<(), Fail> {
    let mut pieces = Vec::new(rt.alloc());
    for k in 0..100_000_usize {
        let to = k.wrapping_mul(2).wrapping_add(100);
        pieces.push(jump(if to < 200_000 { to } else { 200_000 }))?;
        pieces.push(Piece::Fixed(1))?;
    }
    let (_, places) = places(&rt, rt.alloc(), &mut pieces)?;
    assert_eq!(rt; places.as_slice().last().copied(), Some(0xa273f));
    Ok(())
}

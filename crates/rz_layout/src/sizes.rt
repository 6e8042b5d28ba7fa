//! The least forms of pieces, and the places that they then have.

ghost use Rattle.std.specs.Prelude.{◌≡◌, ◌+◌, ◌^◌, ◌<◌, [], length, map, IfOk};
ghost use Rattle.rz_layout.specs.Calls.Pieces.{first_form, total_len, HaveLabels, IsPiecePlan, IsLeastForms, ArePlaces};

use crate::piece::Piece;
use crate::settle::settle;
use rz_isa::Form;
use rz_num::{OutOfMemory, Words};
use std::alloc::Global;

/// The least plan's forms.
pub fn least_forms(alloc: Global, pieces: &[Piece]) -> Result<Vec<Form>, OutOfMemory>
    requires { HaveLabels pieces.now }
    ensures plan { IfOk result (λ forms. IsPiecePlan pieces.now forms.items) }
    ensures least { IfOk result (λ forms. IsLeastForms pieces.now forms.items) }
{
    let mut forms = first_forms(alloc, pieces)?;
    settle(pieces, forms.as_mut_slice());
    Ok(forms)
}

// Each jump to a piece short, and what cannot be short near.
fn first_forms(alloc: Global, pieces: &[Piece]) -> Result<Vec<Form>, OutOfMemory>
    ensures { IfOk result (λ forms. forms.items ≡ map first_form pieces.now) }
{
    let forms = pieces
        .iter()
        .map(|piece| piece.first_form())
        .collect(alloc)?;
    Ok(forms)
}

/// The places of pieces in their forms, where they stand from the address `base` on.
pub fn places_of(
    alloc: Global,
    pieces: &[Piece],
    forms: &[Form],
    base: u64,
) -> Result<Words, OutOfMemory>
    requires each { length forms.now ≡ length pieces.now }
    requires low { base + total_len pieces.now [] < 2 ^ 31 }
    ensures { IfOk result (λ places. ArePlaces pieces.now base forms.now places) }
{
    let mut places = Words::new(alloc);
    let mut here = base;
    for k in 0..pieces.len() {
        places.push(here)?;
        here += pieces[k].len(forms[k]);
    }
    Ok(places)
}

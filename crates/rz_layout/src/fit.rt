//! Tests of what the forms and places of pieces require.

ghost use Rattle.std.specs.Prelude.{◌+◌, ◌^◌, ◌<◌, []};
ghost use Rattle.std.specs.Bool.{OnTrue};
ghost use Rattle.rz_layout.specs.Calls.Pieces.{total_len, HaveLabels};

use crate::piece::Piece;
use rz_isa::Form;

/// Whether the labels of pieces are among them.
pub fn have_labels(pieces: &[Piece]) -> bool
    ensures { OnTrue result (HaveLabels pieces.now) }
{
    for piece in pieces {
        if let Piece::Jump { to, .. } = *piece
            && to > pieces.len()
        {
            return false;
        }
    }
    true
}

/// Whether pieces from the address `base` on, all near, end below 2^31.
pub fn are_low(pieces: &[Piece], base: u64) -> bool
    ensures { OnTrue result (base + total_len pieces.now [] < 2 ^ 31) }
{
    let mut here = base;
    for piece in pieces {
        if here >= 0x8000_0000 {
            return false;
        }
        let len = piece.len(Form::Near);
        if len >= 0x8000_0000 {
            return false;
        }
        here += len;
    }
    here < 0x8000_0000
}

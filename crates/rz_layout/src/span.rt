//! Distances between pieces.

ghost use Rattle.std.specs.Prelude.{◌≡◌, ℕ, ◌+◌, ◌<◌, ◌≤◌, ◌↔◌, length, IsTrue};
ghost use Rattle.std.specs.Bool.{OnTrue, OnFalse};
ghost use Rattle.rz_isa.specs.declared.rows.Form.TheVariants.{Short};
ghost use Rattle.rz_isa.specs.Plan.{form_at, Reaches};
ghost use Rattle.rz_layout.specs.Calls.Pieces.{len_of, piece_offset as offset, piece_at, HaveLabels, MayBeShortAt, IsFarBefore, IsTooFar};

use crate::piece::Piece;
use rz_isa::Form;

/// Whether the pieces from one number up to another take at most so many bytes. It reads no further.
#[tactic(auto, using(crate::proofs::Offsets::offset_more, crate::proofs::Offsets::offset_up))]
pub fn span_within(pieces: &[Piece], forms: &[Form], from: usize, to: usize, limit: u64) -> bool
    requires each { length forms.now ≡ length pieces.now }
    requires ascending { from ≤ to }
    requires within { to ≤ length pieces.now }
    ensures { IsTrue result ↔ (offset pieces.now forms.now to ≤ offset pieces.now forms.now from + limit) }
{
    let mut left = limit;
    for k in from..to {
        let len = pieces[k].len(forms[k]);
        if len > left {
            return false;
        }
        left -= len;
    }
    true
}

/// Whether a short jump, at the index `i`, reaches the piece `to`.
fn reaches(pieces: &[Piece], forms: &[Form], i: usize, to: usize) -> bool
    requires each { length forms.now ≡ length pieces.now }
    requires short { len_of (piece_at pieces.now i) (form_at forms.now i) ≡ 2 }
    requires from { i < length pieces.now }
    requires to { to ≤ length pieces.now }
    ensures { IsTrue result ↔ Reaches (offset pieces.now forms.now i + 2) (offset pieces.now forms.now to) }
{
    if i < to {
        span_within(pieces, forms, i + 1, to, 127)
    } else {
        span_within(pieces, forms, to, i, 126)
    }
}

/// Whether a piece is short though it may not be.
pub fn is_too_far(pieces: &[Piece], forms: &[Form], i: usize) -> bool
    requires each { length forms.now ≡ length pieces.now }
    requires labels { HaveLabels pieces.now }
    requires within { i < length pieces.now }
    ensures far { OnTrue result (IsTooFar pieces.now forms.now i) }
    ensures near { OnFalse result (form_at forms.now i ≡ Short → MayBeShortAt pieces.now forms.now i) }
{
    match forms[i] {
        Form::Near => false,
        Form::Short => match pieces[i] {
            Piece::Fixed(_) => true,
            Piece::Jump { to, .. } => !reaches(pieces, forms, i, to),
        },
    }
}

/// The first piece that a short jump over the piece `i` may be: those before it are more than 127 bytes away.
pub fn first_over(pieces: &[Piece], forms: &[Form], i: usize) -> usize
    requires each { length forms.now ≡ length pieces.now }
    requires within { i < length pieces.now }
    ensures before { result ≤ i }
    ensures away { (k : ℕ) → k < result → IsFarBefore pieces.now forms.now k i }
{
    let mut start = i;
    let mut left = 127;
    while start > 0 {
        start -= 1;
        let len = pieces[start].len(forms[start]);
        if len > left {
            return start;
        }
        left -= len;
    }
    start
}

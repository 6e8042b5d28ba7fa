//! The choice of the forms.

ghost use Rattle.std.specs.Prelude.{◌≡◌, length};
ghost use Rattle.rz_layout.specs.Calls.Pieces.{HaveLabels, IsPiecePlan, IsLeastForms};

use crate::piece::Piece;
use crate::span::{first_over, is_too_far};
use rz_isa::Form;

/// Makes jumps near until each that is still short may be. What it makes near is so in each plan.
pub fn settle(pieces: &[Piece], forms: &mut [Form])
    requires each { length forms.old ≡ length pieces.now }
    requires labels { HaveLabels pieces.now }
    requires least { IsLeastForms pieces.now forms.old }
    ensures plan { IsPiecePlan pieces.now forms.new }
    ensures least { IsLeastForms pieces.now forms.new }
{
    let mut i = 0;
    while i < pieces.len() {
        if is_too_far(pieces, forms, i) {
            let start = first_over(pieces, forms, i);
            forms[i] = Form::Near;
            i = start;
        } else {
            i += 1;
        }
    }
}

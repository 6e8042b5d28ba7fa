//! Pieces of code.

ghost use Rattle.std.specs.Prelude.{◌≡◌};

use rz_isa::Form;

/// A piece of code.
#[derive(Clone, Copy)]
pub enum Piece {
    /// Bytes of a fixed length.
    Fixed(u64),
    /// A jump to the piece of a number, or behind the last one; it may be short.
    Jump { cond: bool, to: usize },
}

impl Piece {
    ghost use Rattle.rz_layout.specs.Calls.Pieces.{len_of, first_form};

    /// The length of the piece in a form, in bytes.
    pub fn len(&self, form: Form) -> u64
        ensures { result ≡ len_of self.now form }
    {
        match (*self, form) {
            (Piece::Fixed(len), _) => len,
            (Piece::Jump { .. }, Form::Short) => 2,
            (Piece::Jump { cond, .. }, Form::Near) => { if cond { 6 } else { 5 } }
        }
    }

    /// The shortest form of the piece.
    pub fn first_form(&self) -> Form
        ensures { result ≡ first_form self.now }
    {
        match self {
            Piece::Jump { .. } => Form::Short,
            Piece::Fixed(_) => Form::Near,
        }
    }
}

//! Layouts of code.

use rz_isa::Form;
use rz_num::Words;
use std::marker::Model;

/// The form of each item, in the order of all items.
#[derive(Drop)]
pub struct Forms {
    items: Vec<Form>,
}

impl Model for Forms {
    ghost use Rattle.std.specs.Prelude.{List};
    ghost use Rattle.rz_isa.specs.declared.rows.Form.{Form};

    ghost Value = { List Form };

    ghost view = { λ f. f.items.items };
}

impl Forms {
    ghost use Rattle.std.specs.Prelude.{◌≡◌};

    /// The forms of a vector, in its own memory.
    pub fn from_vec(items: Vec<Form>) -> Forms
        ensures { result ≡ items.items }
    {
        Forms { items }
    }

    /// The forms as a slice.
    pub fn as_slice(&self) -> &[Form]
        ensures { result.now ≡ self.now }
    {
        self.items.as_slice()
    }
}

/// Where code stands: from `base` on, its end at or below `stubs`. For each item, in the order of
/// all items, `places` has its address and `forms` its form.
#[derive(Drop)]
pub struct Layout {
    pub base: u64,
    pub stubs: u64,
    pub places: Words,
    pub forms: Forms,
}

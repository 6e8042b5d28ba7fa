// Functions by name.

use rz_num::Bytes;
use std::alloc::Global;
use std::marker::Model;

/// A function: its name, of 1 to 255 visible ASCII characters, and its addresses from `lo` up to but not `hi`.
#[derive(Debug, Drop)]
pub struct Function {
    pub name: Bytes,
    pub lo: u64,
    pub hi: u64,
}

/// A list of functions.
#[derive(Debug, Drop)]
pub struct FunctionList {
    items: Vec<Function>,
}

impl Model for FunctionList {
    ghost use Rattle.std.specs.Prelude.{List};
    ghost use Rattle.rz_syms.specs.declared.function.Function.{Function};

    ghost Value = { List Function };

    ghost view = { λ l. l.items.items };
}

impl FunctionList {
    ghost use Rattle.std.specs.Prelude.{◌≡◌};

    /// The functions of a vector, in its own memory.
    pub fn from_vec(items: Vec<Function>) -> FunctionList
        ensures { result ≡ items.items }
    {
        FunctionList { items }
    }

    /// The functions as a slice.
    pub fn as_slice(&self) -> &[Function]
        ensures { result.now ≡ self.now }
    {
        self.items.as_slice()
    }
}

/// The functions of a file in ascending order. No two have an address in common, and each has one.
#[derive(Drop)]
pub struct Symbols {
    pub list: FunctionList,
}

impl Model for Symbols {
    ghost use Rattle.std.specs.Prelude.{List};
    ghost use Rattle.rz_syms.specs.declared.function.Function.{Function};
    ghost use Rattle.rz_syms.specs.Symbols.{AreApart};

    ghost Value = { List Function };

    ghost view = { λ s. s.list };

    ghost invariant = { λ s. AreApart s.list };
}

impl Symbols {
    ghost use Rattle.std.specs.Prelude.{◌≡◌, []};

    /// No functions. It takes no memory.
    pub fn none(alloc: Global) -> Symbols
        ensures { result ≡ [] }
    {
        Symbols {
            list: FunctionList::from_vec(Vec::new(alloc)),
        }
    }
}

// The functions that a class file lists.

use crate::listed::Function;
use rz_num::OutOfMemory;
use std::alloc::Global;
use std::collections::BTreeMap;
use std::marker::Model;

/// The functions that a class file lists, in the order of its lines. No two ranges have an address in common.
#[derive(Drop)]
pub struct Classes {
    functions: Vec<Function>,
    // The place of each function, by its start.
    starts: BTreeMap<u64, u32>,
}

impl Model for Classes {
    ghost use Rattle.std.specs.Prelude.{List};
    ghost use Rattle.rz_classes.specs.declared.listed.Function.{Function};
    ghost use Rattle.rz_classes.specs.Function.{IsIndexed};

    ghost Value = { List Function };

    ghost view = { λ c. c.functions.items };

    ghost invariant = { λ c. IsIndexed c.functions.items c.starts };
}

impl Classes {
    ghost use Rattle.std.specs.Prelude.{◌≡◌, ◌<◌, ◌+◌, ◌^◌, ◌==◌, ◌&&◌, false, nat_lt, Some, [], ◌∷◌, ◌++◌, OnOk, OnErr, length, position, slice_get};
    ghost use Rattle.std.specs.List.{list_any};
    ghost use Rattle.std.specs.Option.{option_map};
    ghost use Rattle.rz_classes.specs.Function.{meets};

    /// No functions. It takes no memory.
    pub fn none(alloc: Global) -> Classes
        ensures { result ≡ [] }
    {
        Classes {
            functions: Vec::new(alloc),
            starts: BTreeMap::new(alloc),
        }
    }

    /// How many functions are listed.
    pub fn len(&self) -> u32
        ensures { result ≡ length self.now }
    {
        self.functions.len() as u32
    }

    /// The place, from 0, of the function that starts at an address; None exactly where none does. It takes logarithmic time.
    pub fn starts_at(&self, a: u64) -> Option<u32>
        ensures { result ≡ position (λ f. f.lo == a) self.now }
    {
        self.starts.get(&a).copied()
    }

    /// The addresses of a function: the first one, and the one behind the last.
    pub fn range(&self, i: u32) -> (u64, u64)
        requires { i < length self.now }
        ensures value { option_map (λ f. (f.lo, f.hi)) (slice_get self.now i) ≡ Some result }
        ensures ordered { result.0 < result.1 }
    {
        let function = &self.functions[i as usize];
        (function.lo, function.hi)
    }

    /// The name of a function's class: 1 to 64 visible ASCII characters.
    pub fn class(&self, i: u32) -> &[u8]
        requires { i < length self.now }
        ensures { option_map (λ f. f.class) (slice_get self.now i) ≡ Some result.now }
    {
        self.functions[i as usize].class.as_slice()
    }

    /// Whether a range that isn't empty has an address in common with that of a function. It takes logarithmic time.
    pub(crate) fn meets(&self, lo: u64, hi: u64) -> bool
        requires { lo < hi }
        ensures { result ≡ list_any (λ f. nat_lt lo f.hi && nat_lt f.lo hi) self.now }
    {
        match self.starts.range(..hi).next_back() {
            Some((_, at)) => self.functions[*at as usize].hi > lo,
            None => false,
        }
    }

    /// Lists a function. It refuses for want of memory alone, and then nothing is changed.
    pub(crate) fn push(&mut self, function: Function) -> Result<(), OutOfMemory>
        requires few { length self.old + 1 < 2 ^ 32 }
        requires ordered { function.lo < function.hi }
        requires apart { list_any (meets function) self.old ≡ false }
        ensures ok { OnOk result (self.new ≡ self.old ++ function ∷ []) }
        ensures err { OnErr result (self.new ≡ self.old) }
    {
        let at = self.functions.len();
        let lo = function.lo;
        self.functions.push(function)?;
        match self.starts.insert(lo, at as u32) {
            Ok(_) => Ok(()),
            Err(_) => {
                self.functions.truncate(at);
                Err(OutOfMemory)
            }
        }
    }
}

ghost use Rattle.std.specs.Prelude.{◌≡◌, [], ◌∷◌, ◌++◌, OnOk, OnErr};

use crate::item_list::Items;
use rz_num::{OutOfMemory, Pairs};
use std::alloc::Global;
use std::marker::Model;

/// The items that stand for the instruction at an address of the original.
#[derive(Drop)]
pub struct Fragment {
    pub at: u64,
    pub items: Items,
}

/// Fragments one after the other.
#[derive(Drop)]
pub struct FragmentList {
    items: Vec<Fragment>,
}

impl Model for FragmentList {
    ghost use Rattle.std.specs.Prelude.{List};
    ghost use Rattle.rz_isa.specs.declared.fragment_list.Fragment.{Fragment};

    ghost Value = { List Fragment };

    ghost view = { λ f. f.items.items };
}

impl FragmentList {
    /// No fragments. It takes no memory.
    pub fn new(alloc: Global) -> FragmentList
        ensures { result ≡ [] }
    {
        FragmentList {
            items: Vec::new(alloc),
        }
    }

    /// The fragments of a vector, in its own memory.
    pub fn from_vec(items: Vec<Fragment>) -> FragmentList
        ensures { result ≡ items.items }
    {
        FragmentList { items }
    }

    /// Appends a fragment. It refuses for want of memory alone, and then the list is unchanged.
    pub fn push(&mut self, fragment: Fragment) -> Result<(), OutOfMemory>
        ensures ok { OnOk result (self.new ≡ self.old ++ fragment ∷ []) }
        ensures err { OnErr result (self.new ≡ self.old) }
    {
        self.items.push(fragment)?;
        Ok(())
    }

    /// The fragments as a slice.
    pub fn as_slice(&self) -> &[Fragment]
        ensures { result.now ≡ self.now }
    {
        self.items.as_slice()
    }
}

/// The code of a new file, before it has its places: the fragments in ascending order of their
/// addresses, and behind them the shared routine.
#[derive(Drop)]
pub struct Fragments {
    pub list: FragmentList,
    pub routine: Items,
    /// The address of each transfer that is looked up, with the address of its table.
    pub tables: Pairs,
    /// The address of each kept instruction, with the address of its stub.
    pub stubs: Pairs,
}

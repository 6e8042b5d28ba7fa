ghost use Rattle.std.specs.Prelude.{◌≡◌, [], ◌∷◌, ◌++◌, OnOk, OnErr, IfOk};

use crate::instruction::Insn;
use rz_flags::Cond;
use rz_num::OutOfMemory;
use std::alloc::Global;
use std::marker::Model;

/// What an item names by its address.
#[derive(Clone, Copy)]
pub enum Label {
    /// The first item of the fragment of an address.
    Place(u64),
    /// The stub of an address.
    Stub(u64),
    /// The item of this number of the same list, from 0; the number of items names the place
    /// behind the last one.
    Item(u32),
    /// The table of the transfer at an address.
    Table(u64),
    /// The first item of the shared routine.
    Routine,
}

/// One instruction of a new file, before the addresses of labels are known.
#[derive(Clone, Copy)]
pub enum Item {
    /// An instruction as it is.
    Whole(Insn),
    /// A jump to a label, under a condition or always (Intel SDM, volume 2, "Jcc" and "JMP").
    Jump { cond: Option<Cond>, to: Label },
    /// A jump to a label where RCX is 0; its displacement has one byte (Intel SDM, volume 2, "Jcc").
    Jrcxz { to: Label },
    /// The move of a label's address to the 64-bit word at an address below 2^31.
    Store { at: u64, label: Label },
}

/// Items one after the other.
#[derive(Drop)]
pub struct Items {
    items: Vec<Item>,
}

impl Model for Items {
    ghost use Rattle.std.specs.Prelude.{List};
    ghost use Rattle.rz_isa.specs.declared.item_list.Item.{Item};

    ghost Value = { List Item };

    ghost view = { λ i. i.items.items };
}

impl Items {
    /// No items. It takes no memory.
    pub fn new(alloc: Global) -> Items
        ensures { result ≡ [] }
    {
        Items {
            items: Vec::new(alloc),
        }
    }

    /// A copy of a slice. It refuses for want of memory alone.
    pub fn from_slice(alloc: Global, items: &[Item]) -> Result<Items, OutOfMemory>
        ensures { IfOk result (λ list. list ≡ items.now) }
    {
        Ok(Items {
            items: Vec::from_slice(alloc, items)?,
        })
    }

    /// Appends an item. It refuses for want of memory alone, and then the items are unchanged.
    pub fn push(&mut self, item: Item) -> Result<(), OutOfMemory>
        ensures ok { OnOk result (self.new ≡ self.old ++ item ∷ []) }
        ensures err { OnErr result (self.new ≡ self.old) }
    {
        self.items.push(item)?;
        Ok(())
    }

    /// The items as a slice.
    pub fn as_slice(&self) -> &[Item]
        ensures { result.now ≡ self.now }
    {
        self.items.as_slice()
    }
}

/// An item in the order of all items, with the numbers of its list's first item and of the one
/// behind its list's last.
#[derive(Clone, Copy)]
pub struct Slot {
    pub item: Item,
    pub first: usize,
    pub stop: usize,
}

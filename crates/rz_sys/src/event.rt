//! Events: the system calls that a run made.

use rz_num::{Bytes, OutOfMemory};
use std::alloc::Global;
use std::marker::Model;

/// A system call as it was made and answered: its number, its three arguments, the answer, and the bytes that it moved.
#[derive(Drop)]
pub struct Event {
    pub number: u64,
    pub args: [u64; 3],
    pub answer: u64,
    pub bytes: Bytes,
}

/// The calls so far, the first one first.
#[derive(Drop)]
pub struct Events {
    items: Vec<Event>,
}

impl Model for Events {
    ghost use Rattle.std.specs.Prelude.{List};
    ghost use Rattle.rz_sys.specs.declared.event.Event.{Event};

    ghost Value = { List Event };

    ghost view = { λ e. e.items.items };
}

impl Events {
    ghost use Rattle.std.specs.Prelude.{◌≡◌, [], ◌∷◌, ◌++◌, OnOk, OnErr};

    /// No events. It takes no memory.
    pub fn new(alloc: Global) -> Events
        ensures { result ≡ [] }
    {
        Events {
            items: Vec::new(alloc),
        }
    }

    /// Appends an event. It refuses for want of memory alone, and then the list is unchanged.
    pub fn push(&mut self, event: Event) -> Result<(), OutOfMemory>
        ensures ok { OnOk result (self.new ≡ self.old ++ event ∷ []) }
        ensures err { OnErr result (self.new ≡ self.old) }
    {
        self.items.push(event)?;
        Ok(())
    }

    /// The events as a slice.
    pub fn as_slice(&self) -> &[Event]
        ensures { result.now ≡ self.now }
    {
        self.items.as_slice()
    }
}

// A store in memory that never fails.

ghost use Rattle.std.specs.Prelude.{◌≡◌, [], IfOk, IfSome, IfNone, Some, None, true};
ghost use Rattle.rz_outside.specs.Entries.{contents_of, HasDistinctNames};
ghost use Rattle.rz_outside.specs.StoreAnswers.{SameFiles};

use crate::entry_list::{Entries, first};
use crate::{ReadErr, Store, WriteErr};
use rz_num::{Bytes, OutOfMemory, Text};
use std::alloc::Global;

/// Files in memory. No call fails: its count of failures is always 0.
#[derive(Drop)]
pub struct PlainStore {
    entries: Entries,
    failed: Text,
}

impl PlainStore {
    ghost use Rattle.rz_outside.specs.declared.plain_store.PlainStore.{PlainStore};

    /// A store of these files.
    pub fn new(alloc: Global, files: Vec<(Text, Bytes)>) -> Result<PlainStore, OutOfMemory>
        requires { HasDistinctNames files.items }
        ensures told { IfOk result (λ store. ⟦<PlainStore as Store>⟧.told store ≡ true) }
        ensures files { IfOk result (λ store.
            SameFiles (contents_of files.items) (⟦<PlainStore as Store>⟧.files store)) }
        ensures failed_name { IfOk result (λ store. ⟦<PlainStore as Store>⟧.failed_name store ≡ []) }
        // At every moment, so that no call over it counts a failure.
        ensures faults { (store : PlainStore) → ⟦<PlainStore as Store>⟧.faults store ≡ 0 }
    {
        Ok(PlainStore {
            entries: Entries::from_vec(files),
            failed: Text::new(alloc),
        })
    }

    /// What a name holds.
    pub fn get(&self, name: &str) -> Option<&[u8]>
        ensures found { IfSome result (λ bytes.
            ⟦<PlainStore as Store>⟧.files self.now name.now ≡ Some bytes.now) }
        ensures missing { IfNone result (⟦<PlainStore as Store>⟧.files self.now name.now ≡ None) }
    {
        self.entries.get(name)
    }
}

impl Store for PlainStore {
    ghost told = { λ _. true };

    ghost files = { λ s. contents_of s.entries };

    ghost faults = { λ _. 0 };

    ghost failed_name = { λ s. s.failed };

    fn read_all(&mut self, alloc: Global, name: &Text, max: u64) -> Result<Bytes, ReadErr> {
        let copy = Text::from_slice(alloc, name.as_slice())?;
        match self.entries.get(name.as_slice()) {
            Some(bytes) => Ok(Bytes::from_slice(alloc, first(bytes, max))?),
            None => {
                self.failed = copy;
                Err(ReadErr::Missing)
            }
        }
    }

    fn write_all(&mut self, alloc: Global, name: &Text, bytes: &Bytes) -> Result<(), WriteErr> {
        let contents = Bytes::from_slice(alloc, bytes.as_slice())?;
        self.entries.set(alloc, name.as_slice(), contents)?;
        Ok(())
    }
}

// A store in memory, some of whose calls fail.

ghost use Rattle.std.specs.Prelude.{◌≡◌, [], IfOk, IfSome, IfNone, Some, None, true};
ghost use Rattle.rz_outside.specs.Entries.{contents_of, HasDistinctNames};
ghost use Rattle.rz_outside.specs.StoreAnswers.{SameFiles};

use crate::entry_list::{Entries, first};
use crate::fault_schedule::FaultSchedule;
use crate::{ReadErr, Store, WriteErr};
use rz_num::{Bytes, OutOfMemory, Text};
use std::alloc::Global;

/// Files in memory, whose listed calls fail.
///
/// Calls are numbered from 1. A write that fails leaves the first half of the bytes, rounded down.
#[derive(Drop)]
pub struct MemStore {
    entries: Entries,
    schedule: FaultSchedule,
    faults: u64,
    failed: Text,
}

impl MemStore {
    /// A store of these files, whose calls with the numbers in `failing` fail.
    pub fn new(
        alloc: Global,
        files: Vec<(Text, Bytes)>,
        failing: Vec<u64>,
    ) -> Result<MemStore, OutOfMemory>
        requires { HasDistinctNames files.items }
        ensures told { IfOk result (λ store. ⟦<MemStore as Store>⟧.told store ≡ true) }
        ensures files { IfOk result (λ store.
            SameFiles (contents_of files.items) (⟦<MemStore as Store>⟧.files store)) }
        ensures faults { IfOk result (λ store. ⟦<MemStore as Store>⟧.faults store ≡ 0) }
        ensures failed_name { IfOk result (λ store. ⟦<MemStore as Store>⟧.failed_name store ≡ []) }
    {
        Ok(MemStore {
            entries: Entries::from_vec(files),
            schedule: FaultSchedule::new(failing),
            faults: 0,
            failed: Text::new(alloc),
        })
    }

    /// What a name holds.
    pub fn get(&self, name: &str) -> Option<&[u8]>
        ensures found { IfSome result (λ bytes.
            ⟦<MemStore as Store>⟧.files self.now name.now ≡ Some bytes.now) }
        ensures missing { IfNone result (⟦<MemStore as Store>⟧.files self.now name.now ≡ None) }
    {
        self.entries.get(name)
    }
}

impl Store for MemStore {
    ghost told = { λ _. true };

    ghost files = { λ s. contents_of s.entries };

    ghost faults = { λ s. s.faults };

    ghost failed_name = { λ s. s.failed };

    fn read_all(&mut self, alloc: Global, name: &Text, max: u64) -> Result<Bytes, ReadErr> {
        let copy = Text::from_slice(alloc, name.as_slice())?;
        if self.schedule.next_fails() {
            self.faults = self.faults.saturating_add(1);
            self.failed = copy;
            return Err(ReadErr::Failed);
        }
        match self.entries.get(name.as_slice()) {
            Some(bytes) => Ok(Bytes::from_slice(alloc, first(bytes, max))?),
            None => {
                self.failed = copy;
                Err(ReadErr::Missing)
            }
        }
    }

    fn write_all(&mut self, alloc: Global, name: &Text, bytes: &Bytes) -> Result<(), WriteErr> {
        let copy = Text::from_slice(alloc, name.as_slice())?;
        let whole = bytes.as_slice();
        if self.schedule.next_fails() {
            let half = Bytes::from_slice(alloc, &whole[..whole.len() / 2])?;
            self.entries.set(alloc, name.as_slice(), half)?;
            self.faults = self.faults.saturating_add(1);
            self.failed = copy;
            return Err(WriteErr::Failed);
        }
        let contents = Bytes::from_slice(alloc, whole)?;
        self.entries.set(alloc, name.as_slice(), contents)?;
        Ok(())
    }
}

// A sink in memory, some of whose calls fail.

ghost use Rattle.std.specs.Prelude.{◌≡◌, [], Some, IfOk};

use crate::fault_schedule::FaultSchedule;
use crate::{PutErr, Sink};
use rz_num::{Bytes, OutOfMemory};
use std::alloc::Global;

/// Text in memory. The listed calls fail.
///
/// Calls are numbered from 1. A put that fails appends the first half of the bytes, rounded down.
#[derive(Drop)]
pub struct MemSink {
    text: Bytes,
    schedule: FaultSchedule,
    faults: u64,
}

impl MemSink {
    /// An empty sink, whose calls with the numbers in `failing` fail.
    pub fn new(alloc: Global, failing: Vec<u64>) -> Result<MemSink, OutOfMemory>
        ensures written { IfOk result (λ sink. ⟦<MemSink as Sink>⟧.written sink ≡ Some []) }
        ensures faults { IfOk result (λ sink. ⟦<MemSink as Sink>⟧.faults sink ≡ 0) }
    {
        Ok(MemSink {
            text: Bytes::new(alloc),
            schedule: FaultSchedule::new(failing),
            faults: 0,
        })
    }

    /// What was written.
    pub fn as_slice(&self) -> &[u8]
        ensures { ⟦<MemSink as Sink>⟧.written self.now ≡ Some result.now }
    {
        self.text.as_slice()
    }
}

impl Sink for MemSink {
    ghost written = { λ s. Some s.text };

    ghost faults = { λ s. s.faults };

    fn put(&mut self, bytes: &Bytes) -> Result<(), PutErr> {
        let whole = bytes.as_slice();
        if self.schedule.next_fails() {
            self.text.push_all(&whole[..whole.len() / 2])?;
            self.faults = self.faults.saturating_add(1);
            return Err(PutErr::Failed);
        }
        self.text.push_all(whole)?;
        Ok(())
    }
}

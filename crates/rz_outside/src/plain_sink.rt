// A sink in memory that never fails.

ghost use Rattle.std.specs.Prelude.{◌≡◌, [], Some};

use crate::{PutErr, Sink};
use rz_num::Bytes;
use std::alloc::Global;

/// Text in memory. No call fails: its count of failures is always 0.
#[derive(Drop)]
pub struct PlainSink {
    text: Bytes,
}

impl PlainSink {
    ghost use Rattle.rz_outside.specs.declared.plain_sink.PlainSink.{PlainSink};

    /// An empty sink.
    pub fn new(alloc: Global) -> PlainSink
        ensures written { ⟦<PlainSink as Sink>⟧.written result ≡ Some [] }
        // At every moment, so that no call over it counts a failure.
        ensures faults { (sink : PlainSink) → ⟦<PlainSink as Sink>⟧.faults sink ≡ 0 }
    {
        PlainSink {
            text: Bytes::new(alloc),
        }
    }

    /// What was written.
    pub fn as_slice(&self) -> &[u8]
        ensures { ⟦<PlainSink as Sink>⟧.written self.now ≡ Some result.now }
    {
        self.text.as_slice()
    }
}

impl Sink for PlainSink {
    ghost written = { λ s. Some s.text };

    ghost faults = { λ _. 0 };

    fn put(&mut self, bytes: &Bytes) -> Result<(), PutErr> {
        self.text.push_all(bytes.as_slice())?;
        Ok(())
    }
}

// Standard output.

ghost use Rattle.std.specs.Prelude.{◌≡◌, None};

use crate::transfer::{Stopped, write_whole};
use crate::{PutErr, Sink};
use rz_num::Bytes;
use std::io::{self, Print};

/// Standard output. It does not tell what was written.
#[derive(Drop)]
pub struct OutSink<'a, R: Print> {
    rt: &'a R,
    faults: u64,
}

impl<'a, R: Print> OutSink<'a, R> {
    /// The standard output of a runtime.
    pub fn new(rt: &'a R) -> OutSink<'a, R>
        ensures written { ⟦<OutSink<'a, R> as Sink>⟧.written result ≡ None }
        ensures faults { ⟦<OutSink<'a, R> as Sink>⟧.faults result ≡ 0 }
    {
        OutSink { rt, faults: 0 }
    }
}

impl<R: Print> Sink for OutSink<'_, R> {
    ghost written = { λ _. None };

    ghost faults = { λ s. s.faults };

    fn put(&mut self, bytes: &Bytes) -> Result<(), PutErr> {
        match write_whole(&mut io::writer(self.rt), bytes.as_slice()) {
            Ok(()) => Ok(()),
            Err(Stopped) => {
                self.faults = self.faults.saturating_add(1);
                Err(PutErr::Failed)
            }
        }
    }
}

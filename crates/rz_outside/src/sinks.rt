// Sinks of text.

ghost use Rattle.std.specs.Prelude.{◌≡◌, ◌≤◌, ◌↔◌, ℕ, List, Option, IsSome, OnOk, IfErr};
ghost use Rattle.rz_outside.specs.SinkAnswers.{appended, PutErrCause, PutErrLeaves};

use rz_num::{Bytes, OutOfMemory};
use thiserror::Error;

/// Why a put did not append the whole.
#[derive(Clone, Copy, Debug, PartialEq, Eq, Error)]
pub enum PutErr {
    #[error("the write failed")]
    Failed,
    #[error("out of memory")]
    OutOfMemory,
}

impl From<OutOfMemory> for PutErr {
    ghost use Rattle.rz_outside.specs.declared.sinks.PutErr.TheVariants as put;

    ghost from_gives = { λ _ e. e ≡ put.OutOfMemory };

    fn from(_: OutOfMemory) -> PutErr {
        PutErr::OutOfMemory
    }
}

/// Where text goes.
pub trait Sink {
    /// What was written, where it tells it.
    ghost written: { Self → Option (List ℕ) };

    /// How many calls have failed. It stays at 2 ^ 64 - 1.
    ghost faults: { Self → ℕ };

    /// Appends these bytes.
    fn put(&mut self, bytes: &Bytes) -> Result<(), PutErr>
        ensures telling { IsSome (written self.new) ↔ IsSome (written self.old) }
        ensures count { faults self.old ≤ faults self.new }

        ensures written { OnOk result (written self.new ≡ appended (written self.old) bytes.now) }
        ensures cause { IfErr result (PutErrCause (faults self.old) (faults self.new)) }
        ensures left { IfErr result (PutErrLeaves (written self.old) (written self.new) bytes.now) };
}

// Stores of files.

ghost use Rattle.std.specs.Prelude.{◌≡◌, ◌≤◌, ℕ, Bool, List, Option, OnOk, IfOk, IfErr};
ghost use Rattle.rz_outside.specs.StoreAnswers.{SameFiles, SameOthers, ReadsFirst, ReadErrCause, failed_after_read, Holds, WriteErrCause, WriteErrLeaves, failed_after_write};

use rz_num::{Bytes, OutOfMemory, Text};
use std::alloc::Global;
use thiserror::Error;

/// Why a read gave no bytes.
#[derive(Clone, Copy, Debug, PartialEq, Eq, Error)]
pub enum ReadErr {
    #[error("no such file")]
    Missing,
    #[error("the read failed")]
    Failed,
    #[error("out of memory")]
    OutOfMemory,
}

/// Why a write did not write the whole.
#[derive(Clone, Copy, Debug, PartialEq, Eq, Error)]
pub enum WriteErr {
    #[error("the write failed")]
    Failed,
    #[error("out of memory")]
    OutOfMemory,
}

impl From<OutOfMemory> for ReadErr {
    ghost use Rattle.rz_outside.specs.declared.stores.ReadErr.TheVariants as read;

    ghost from_gives = { λ _ e. e ≡ read.OutOfMemory };

    fn from(_: OutOfMemory) -> ReadErr {
        ReadErr::OutOfMemory
    }
}

impl From<OutOfMemory> for WriteErr {
    ghost use Rattle.rz_outside.specs.declared.stores.WriteErr.TheVariants as write;

    ghost from_gives = { λ _ e. e ≡ write.OutOfMemory };

    fn from(_: OutOfMemory) -> WriteErr {
        WriteErr::OutOfMemory
    }
}

/// Files by their names.
pub trait Store {
    /// Whether it tells its files.
    ghost told: { Self → Bool };

    /// What each name holds, where it tells it.
    ghost files: { Self → List ℕ → Option (List ℕ) };

    /// How many calls have failed. It stays at 2 ^ 64 - 1.
    ghost faults: { Self → ℕ };

    /// The name of the last call that answered `Missing` or `Failed`; empty at first.
    ghost failed_name: { Self → List ℕ };

    /// The first `max` bytes of a file, or all where it is shorter.
    fn read_all(&mut self, alloc: Global, name: &Text, max: u64) -> Result<Bytes, ReadErr>
        ensures telling { told self.new ≡ told self.old }
        ensures kept { SameFiles (files self.old) (files self.new) }
        ensures count { faults self.old ≤ faults self.new }
        ensures named { failed_name self.new ≡ failed_after_read (failed_name self.old) name.now result }

        ensures read { IfOk result (ReadsFirst (told self.old) (files self.old) name.now max) }
        ensures cause { IfErr result (ReadErrCause (told self.old) (files self.old) name.now
            (faults self.old) (faults self.new)) };

    /// Makes a name hold these bytes.
    fn write_all(&mut self, alloc: Global, name: &Text, bytes: &Bytes) -> Result<(), WriteErr>
        ensures telling { told self.new ≡ told self.old }
        ensures others { SameOthers name.now (files self.old) (files self.new) }
        ensures count { faults self.old ≤ faults self.new }
        ensures named { failed_name self.new ≡ failed_after_write (failed_name self.old) name.now result }

        ensures written { OnOk result (Holds (told self.old) (files self.new) name.now bytes.now) }
        ensures cause { IfErr result (WriteErrCause (faults self.old) (faults self.new)) }
        ensures left { IfErr result (WriteErrLeaves (told self.old) (files self.old) (files self.new)
            name.now bytes.now) };
}

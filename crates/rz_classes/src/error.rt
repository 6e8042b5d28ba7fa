// Why a class file isn't read.

use rz_num::OutOfMemory;
use thiserror::Error;

/// Why a class file isn't read. Lines count from 1.
#[derive(Clone, Copy, PartialEq, Eq, Debug, Error)]
pub enum ClassError {
    /// The line isn't in the grammar; 0 where the text has more than 16,777,216 bytes.
    #[error("bad line {0}")]
    BadLine(u64),
    /// The line's range meets that of an earlier line.
    #[error("overlap at line {0}")]
    Overlap(u64),
    #[error("out of memory")]
    OutOfMemory,
}

impl From<OutOfMemory> for ClassError {
    ghost use Rattle.std.specs.Prelude.{◌≡◌};
    ghost use Rattle.rz_classes.specs.declared.error.ClassError.TheVariants as error;

    ghost from_gives = { λ _ e. e ≡ error.OutOfMemory };

    fn from(_: OutOfMemory) -> ClassError {
        ClassError::OutOfMemory
    }
}

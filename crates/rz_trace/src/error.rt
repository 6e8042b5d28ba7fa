// Why a trace file isn't read.

use rz_num::OutOfMemory;
use thiserror::Error;

/// Why a trace file isn't read. Lines count from 1.
#[derive(Clone, Copy, PartialEq, Eq, Debug, Error)]
pub enum TraceFault {
    /// The first line that breaks the grammar, which is the line behind the last where `end` is missing; 0 where the text has more
    /// than 16,777,216 bytes.
    #[error("bad line {0}")]
    BadLine(u64),
    #[error("out of memory")]
    OutOfMemory,
}

impl From<OutOfMemory> for TraceFault {
    ghost use Rattle.std.specs.Prelude.{◌≡◌};
    ghost use Rattle.rz_trace.specs.declared.error.TraceFault.TheVariants as error;

    ghost from_gives = { λ _ e. e ≡ error.OutOfMemory };

    fn from(_: OutOfMemory) -> TraceFault {
        TraceFault::OutOfMemory
    }
}

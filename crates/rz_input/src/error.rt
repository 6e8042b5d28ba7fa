// Why an input file isn't read.

use rz_num::OutOfMemory;
use thiserror::Error;

/// Why an input file isn't read. Lines count from 1.
#[derive(Clone, Copy, PartialEq, Eq, Debug, Error)]
pub enum InputError {
    /// The line isn't in the grammar; 0 where the text has more than 16,777,216 bytes.
    #[error("bad line {0}")]
    BadLine(u64),
    /// With the argument of this line the arguments and their zero bytes take more than 65,536 bytes.
    #[error("arguments too big at line {0}")]
    TooBig(u64),
    #[error("out of memory")]
    OutOfMemory,
}

impl From<OutOfMemory> for InputError {
    ghost use Rattle.std.specs.Prelude.{◌≡◌};
    ghost use Rattle.rz_input.specs.declared.error.InputError.TheVariants as error;

    ghost from_gives = { λ _ e. e ≡ error.OutOfMemory };

    fn from(_: OutOfMemory) -> InputError {
        InputError::OutOfMemory
    }
}

//! Why no new file is made.

use rz_elf::room::Room;
use rz_num::OutOfMemory;
use thiserror::Error;

/// Why no new file was made: the instruction at a kept address names an address relative to RIP that is out of reach
/// from the added parts, these have no room in the file, or there was no memory.
#[derive(Clone, Copy, PartialEq, Eq, Debug, Error)]
pub enum Refusal {
    #[error("rip reach {0:#x}")]
    RipReach(u64),
    #[error("no room {0}")]
    NoRoom(Room),
    #[error("out of memory")]
    OutOfMemory,
}

impl From<OutOfMemory> for Refusal {
    ghost use Rattle.std.specs.Prelude.{◌≡◌};
    ghost use Rattle.rz_rewrite.specs.declared.refusal.Refusal.TheVariants.{OutOfMemory};

    ghost from_gives = { λ _ e. e ≡ OutOfMemory };

    fn from(_: OutOfMemory) -> Refusal {
        Refusal::OutOfMemory
    }
}

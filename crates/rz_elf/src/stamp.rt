//! Stamped files.

ghost use Rattle.std.specs.Prelude.{◌≡◌};
ghost use Rattle.rz_elf.specs.Stamped.{has_stamp as is_stamped, stamp_of};

use crate::elf::Elf;
use crate::format::{ADDED_LOADS, STAMP, STAMP_AT, STAMP_NUMBER};

/// The number of a file's stamp, at bytes 9 to 15: 1. None exactly where it has no stamp of a written file, or fewer
/// than four loads. It takes no memory.
pub fn stamped(elf: &Elf) -> Option<u8>
    ensures { result ≡ stamp_of elf.now }
{
    if has_stamp(elf, &STAMP) {
        Some(STAMP_NUMBER)
    } else {
        None
    }
}

// Whether a file has a stamp, and at least as many loads as are added.
fn has_stamp(elf: &Elf, stamp: &[u8; 7]) -> bool
    ensures { result ≡ is_stamped stamp.now elf.now }
{
    elf.bytes.as_slice()[STAMP_AT..].starts_with(stamp) && elf.loads.as_slice().len() >= ADDED_LOADS
}

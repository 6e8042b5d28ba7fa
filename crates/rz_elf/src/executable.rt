//! The bytes that a file has executable.

ghost use Rattle.std.specs.Prelude.{◌≡◌, ◌≤◌, ◌<◌, ◌^◌};
ghost use Rattle.rz_elf.specs.Executable.{executable_in as executable_in_of, executable_size as executable_size_of};

use crate::elf::{Elf, Load};

/// The bytes of the executable loads of a file in memory. It takes no memory.
pub fn executable_size(elf: &Elf) -> u64
    ensures size { result ≡ executable_size_of elf.now }
    ensures most { result ≤ 268435456 }
{
    executable_in(elf.loads.as_slice())
}

// Those of these loads.
fn executable_in(loads: &[Load]) -> u64
    requires { executable_in_of loads.now < 2 ^ 64 }
    ensures { result ≡ executable_in_of loads.now }
{
    loads
        .iter()
        .filter(|load| load.perm.executes())
        .map(|load| load.size)
        .sum()
}

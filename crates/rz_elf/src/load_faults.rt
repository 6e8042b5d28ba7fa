// The faults of the loads together.

ghost use Rattle.std.specs.Prelude.{◌≡◌, ◌≤◌, length, map, sum_by};
ghost use Rattle.std.specs.List.{list_any};
ghost use Rattle.rz_elf.specs.Elf.{first_of as first_fault, has_entry as enters, load_conditions};

use crate::fault::ElfFault;
use crate::file_faults::first_of;
use crate::placed::Placed;

// The most bytes of all loads in memory.
const MOST_MEMORY: u128 = 268_435_456;

/// The first fault of the loads of a file with an entry.
pub fn load_fault(entry: u64, loads: &[Placed]) -> Option<ElfFault>
    requires { length loads.now ≤ 64 }
    ensures { result ≡ first_fault (load_conditions entry (map (λ p. p.segment) loads.now)) }
{
    first_of(&[
        (total_size(loads) > MOST_MEMORY, ElfFault::TotalSize),
        (loads.is_empty(), ElfFault::NoLoad),
        (!has_entry(entry, loads), ElfFault::Entry),
    ])
}

// The bytes of all loads in memory.
fn total_size(loads: &[Placed]) -> u128
    requires { length loads.now ≤ 64 }
    ensures { result ≡ sum_by (λ s. s.memsz) (map (λ p. p.segment) loads.now) }
{
    let mut total = 0;
    for load in loads {
        total += u128::from(load.segment.memsz);
    }
    total
}

// Whether one of the loads has the entry.
fn has_entry(entry: u64, loads: &[Placed]) -> bool
    ensures { result ≡ list_any (enters entry) (map (λ p. p.segment) loads.now) }
{
    for load in loads {
        if load.segment.has_entry(entry) {
            return true;
        }
    }
    false
}

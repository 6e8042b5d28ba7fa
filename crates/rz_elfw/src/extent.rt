//! What an accepted file takes.

ghost use Rattle.std.specs.Prelude.{◌≡◌, ◌<◌, ◌^◌, ℕ, List, map, sum_by};
ghost use Rattle.rz_elf.specs.AddedRange.{lowest, page_floor as floor_of};
ghost use Rattle.rz_elf.specs.Loaded.{loaded_region};
ghost use Rattle.rz_elf.specs.Room.{extent_of};

use crate::segments::kept_count;
use rz_elf::elf::{Elf, Load};
use rz_elf::room::Extent;

// The bytes of a page.
const PAGE: u64 = 4096;

/// What a file takes, which says whether there is room for added parts. It takes no memory.
pub fn extent_of(elf: &Elf) -> Extent
    ensures { result ≡ extent_of elf.now.bytes }
{
    let loads = elf.loads.as_slice();
    Extent {
        floor: page_floor(lowest_load(loads)),
        headers: kept_count(elf),
        bytes: elf.bytes.as_slice().len() as u64,
        memory: total_size(loads),
    }
}

// The address where the page of an address begins.
fn page_floor(a: u64) -> u64
    ensures { result ≡ floor_of a }
{
    a - a % PAGE
}

// The address where the lowest load begins; 0 where there is none.
fn lowest_load(loads: &[Load]) -> u64
    ensures { (bytes : List ℕ) → lowest (map (loaded_region bytes) loads.now) ≡ result }
{
    let [first, rest @ ..] = loads else {
        return 0;
    };
    let mut least = first.at;
    for load in rest {
        least = least.min(load.at);
    }
    least
}

// The bytes of all loads in memory.
fn total_size(loads: &[Load]) -> u64
    requires { sum_by (λ l. l.size) loads.now < 2 ^ 64 }
    ensures { result ≡ sum_by (λ l. l.size) loads.now }
{
    let mut total = 0;
    for load in loads {
        total += load.size;
    }
    total
}

//! The code of a file.

ghost use Rattle.std.specs.Prelude.{◌≡◌, ◌≤◌, ◌<◌, length, map, take};
ghost use Rattle.std.specs.List.{AllByRecursion};
ghost use Rattle.rz_image.specs.Memory.{cell_at, cell_in, code_of, contains, fetch as fetch_at};
ghost use Rattle.rz_elf.specs.Elf.{image_of};
ghost use Rattle.rz_elf.specs.Loaded.{IsLoad, loaded_region};

use crate::elf::{Elf, Load};

/// The bytes at an address that the loads with flags 5 have, up to the first that they don't, and at most 15: how many
/// there are. They are the first ones of `out`.
pub fn code_at(elf: &Elf, at: u64, out: &mut [u8; 15]) -> u8
    ensures length { result ≤ 15 }
    ensures bytes { take result out.new ≡ fetch_at (image_of elf.now.bytes).loads at 15 }
{
    fetch(elf.bytes.as_slice(), elf.loads.as_slice(), at, out)
}

fn fetch(file: &[u8], loads: &[Load], at: u64, out: &mut [u8; 15]) -> u8
    requires { AllByRecursion (IsLoad (length file.now)) loads.now }
    ensures length { result ≤ 15 }
    ensures bytes { take result out.new ≡ fetch_at (map (loaded_region file.now) loads.now) at 15 }
{
    let mut n: u8 = 0;
    while n < 15 {
        let Some(a) = at.checked_add(n as u64) else {
            return n;
        };
        let Some(byte) = code_byte(file, loads, a) else {
            return n;
        };
        out[n as usize] = byte;
        n += 1;
    }
    n
}

// The byte at an address, where it may be executed.
#[tactic(auto, unfolding(rz_image::specs::Memory::cell_at))]
fn code_byte(file: &[u8], loads: &[Load], at: u64) -> Option<u8>
    requires { AllByRecursion (IsLoad (length file.now)) loads.now }
    ensures { result ≡ code_of (cell_at (map (loaded_region file.now) loads.now) at) }
{
    for load in loads {
        if has_address(file, load, at) {
            return code_in(file, load, at - load.at);
        }
    }
    None
}

fn has_address(file: &[u8], load: &Load, at: u64) -> bool
    requires { IsLoad (length file.now) load.now }
    ensures { result ≡ contains (loaded_region file.now load.now) at }
{
    let _ = file;
    load.at <= at && at - load.at < load.size
}

// The byte at a place of a load, where it may be executed: one of the file, or a zero past those.
fn code_in(file: &[u8], load: &Load, place: u64) -> Option<u8>
    requires load { IsLoad (length file.now) load.now }
    requires inside { place < load.now.size }
    ensures { result ≡ code_of (cell_in (loaded_region file.now load.now) place) }
{
    if !load.perm.executes() {
        return None;
    }
    if load.file_size <= place {
        return Some(0);
    }
    Some(file[(load.file_at + place) as usize])
}

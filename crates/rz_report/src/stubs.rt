// The stubs of a file, counted for the report of a pair.

ghost use Rattle.std.specs.Prelude.{◌≡◌, ◌+◌, ◌≤◌, length, take, drop};
ghost use Rattle.rz_elf.specs.Format.{stub_size};
ghost use Rattle.rz_elf.specs.Loaded.{IsLoad, loaded_region};
ghost use Rattle.rz_report.specs.Stubs.{begins_stub as begins_stub_of, stub_count as stub_count_of, stubs_in as stubs_in_of};

use rz_elf::elf::{Elf, Load};
use rz_elf::format::{STUB_FRONT, STUB_SIZE, STUBS_LOAD};
use rz_elf::stamp::stamped;

/// The number of stubs in a file: of the whole pieces of its fourth load that begin as a stub does, before the first that
/// doesn't; 0 where the file isn't stamped. It takes no memory.
pub fn stub_count(elf: &Elf) -> u64
    ensures { result ≡ stub_count_of elf.now }
{
    if stamped(elf).is_none() {
        return 0;
    }
    match elf.loads.as_slice().get(STUBS_LOAD) {
        Some(load) => stubs_in(elf.bytes.as_slice(), load),
        None => 0,
    }
}

// The number of stubs in a load.
fn stubs_in(file: &[u8], load: &Load) -> u64
    requires { IsLoad (length file.now) load.now }
    ensures { result ≡ stubs_in_of (loaded_region file.now load.now).bytes }
{
    let pieces = load.size / STUB_SIZE;
    for piece in 0..pieces {
        if !begins_stub(file, load, STUB_SIZE * piece) {
            return piece;
        }
    }
    pieces
}

// Whether a piece from a place of a load on begins as a stub does. Then these bytes are of the file.
fn begins_stub(file: &[u8], load: &Load, place: u64) -> bool
    requires load { IsLoad (length file.now) load.now }
    requires inside { place + stub_size ≤ load.now.size }
    ensures { result ≡ begins_stub_of (take stub_size (drop place (loaded_region file.now load.now).bytes)) }
{
    place + 2 <= load.file_size && file[(load.file_at + place) as usize..].starts_with(&STUB_FRONT)
}

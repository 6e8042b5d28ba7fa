//! Stubs: where the run of a stamped file stands that took an edge that isn't kept.

ghost use Rattle.std.specs.Prelude.{◌≡◌, ◌+◌, ◌<◌, ◌^◌, length, get_or};
ghost use Rattle.rz_elf.specs.Loaded.{IsLoad, loaded_region};
ghost use Rattle.rz_machine.specs.Stub.{StubsNameNodes, illegal_stub as illegal_stub_of, stub_in as stub_of, stub_word_of, word_in as word_of};

use crate::machine::{End, Machine};
use rz_elf::elf::{Elf, Load};
use rz_elf::format::{STUB_SIZE, STUB_WORD_AT, STUBS_LOAD};
use rz_elf::stamp::stamped;
use rz_num::get_u64;

// The bytes of a word.
const WORD: u64 = 8;

/// The word of the stub at which a run of a file ended: the address of the instruction that it left by an edge that isn't
/// kept. None exactly where it didn't end at a stub, or the file isn't stamped. It takes no memory.
pub fn stub_word(elf: &Elf, machine: &Machine) -> Option<u64>
    ensures { result ≡ stub_word_of elf.now machine.now }
{
    let end = machine.end?;
    stamped(elf)?;
    illegal_stub(elf, end)
}

/// In a written file, a run that ended at the stub of a kept instruction ended at a stub with the instruction's address
/// as its word. It does nothing when it runs.
pub fn stubs_name_nodes()
    ensures { StubsNameNodes }
{}

// The word of the stub at which a run of a file of the first stamp ended: its end is Illegal there.
fn illegal_stub(elf: &Elf, end: End) -> Option<u64>
    ensures { result ≡ illegal_stub_of elf.now end }
{
    match end {
        End::Illegal(at) => {
            stub_in(
                elf.bytes.as_slice(),
                elf.loads.as_slice().get(STUBS_LOAD)?,
                at,
            )
        }
        _ => None,
    }
}

// The word of the stub that begins at an address of a load.
fn stub_in(file: &[u8], load: &Load, at: u64) -> Option<u64>
    requires { IsLoad (length file.now) load.now }
    ensures { result ≡ stub_of at (loaded_region file.now load.now) }
{
    let place = at.checked_sub(load.at)?;
    if place < load.size && place % STUB_SIZE == 0 {
        word_in(file, load, place + STUB_WORD_AT)
    } else {
        None
    }
}

// The eight bytes from a place of a load on; none where they leave it.
fn word_in(file: &[u8], load: &Load, place: u64) -> Option<u64>
    requires load { IsLoad (length file.now) load.now }
    requires low { place + 8 < 2 ^ 64 }
    ensures { result ≡ word_of (loaded_region file.now load.now) place }
{
    if place + WORD > load.size {
        return None;
    }
    let mut word = [0; WORD as usize];
    for i in 0..WORD {
        word[i as usize] = byte_in(file, load, place + i);
    }
    Some(get_u64(&word, 0))
}

// The byte at a place of a load: one of the file, or a zero past those.
fn byte_in(file: &[u8], load: &Load, place: u64) -> u8
    requires load { IsLoad (length file.now) load.now }
    requires inside { place < load.now.size }
    ensures { result ≡ get_or (loaded_region file.now load.now).bytes place 0 }
{
    if place < load.file_size {
        file[(load.file_at + place) as usize]
    } else {
        0
    }
}

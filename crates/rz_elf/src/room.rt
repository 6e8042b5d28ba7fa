//! Whether there is room in a file for added parts.

ghost use Rattle.std.specs.Prelude.{◌≡◌, Some};
ghost use Rattle.rz_num.specs.Page.{page_up};

use crate::format::ADDED_LOADS;
use std::{error, fmt};

// The lowest address of loads; the most program headers, bytes of a file, and bytes of all loads in memory.
const LOWEST: u128 = 0x1_0000;

const MOST_HEADERS: u128 = 64;

const MOST_BYTES: u128 = 67_108_864;

const MOST_MEMORY: u128 = 268_435_456;

// The bytes of a page, of the header page and of the scratch page.
const PAGE: u128 = 4096;

/// Why there is no room, in the order in which it is tried: no addresses below the lowest load, too many program
/// headers, too many bytes in the file, or in all loads in memory.
#[derive(Clone, Copy, PartialEq, Eq, Debug)]
pub enum Room {
    Low,
    Headers,
    Length,
    Total,
}

impl fmt::Display for Room {
    ghost use Rattle.rz_elf.specs.Texts.{room_text};

    ghost output = { λ room. Some (room_text room) };

    fn fmt<W: fmt::Write>(&self, f: &mut fmt::Formatter<W>) -> fmt::Result {
        match *self {
            Room::Low => write!(f, "Low"),
            Room::Headers => write!(f, "Headers"),
            Room::Length => write!(f, "Length"),
            Room::Total => write!(f, "Total"),
        }
    }
}

impl error::Error for Room {}

/// What a file takes: the address of the page where its lowest load begins, the number of its program headers that a
/// new file keeps, its bytes, and those of its loads in memory.
#[derive(Clone, Copy, PartialEq, Eq, Debug)]
pub struct Extent {
    pub floor: u64,
    pub headers: u64,
    pub bytes: u64,
    pub memory: u64,
}

impl Extent {
    ghost use Rattle.rz_elf.specs.Room.{no_room};

    /// Why there is no room for a scratch page and parts of `size` bytes in all; none where there is room.
    pub fn no_room(&self, size: u64) -> Option<Room>
        ensures { result ≡ no_room self.now size }
    {
        let size = u128::from(size);
        if u128::from(self.floor) < LOWEST + PAGE + size {
            return Some(Room::Low);
        }
        if ADDED_LOADS as u128 + u128::from(self.headers) > MOST_HEADERS {
            return Some(Room::Headers);
        }
        if PAGE + pages(self.bytes) + size > MOST_BYTES {
            return Some(Room::Length);
        }
        if u128::from(self.memory) + PAGE + size > MOST_MEMORY {
            return Some(Room::Total);
        }
        None
    }
}

// So many bytes, rounded up to whole pages.
fn pages(bytes: u64) -> u128
    ensures { result ≡ page_up bytes }
{
    (u128::from(bytes) + PAGE - 1) / PAGE * PAGE
}

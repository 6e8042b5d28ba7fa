ghost use Rattle.std.specs.Prelude.{◌≡◌, ◌<◌, ◌+◌, length, take, drop};
ghost use Rattle.rz_isa.specs.Class.{class_place as place_among};
ghost use Rattle.rz_table.specs.Index.{cell as cell_at, opcode_place as place_of};

use rz_isa::{Class, OpMap};

fn front(numbers: &'static [u8], n: usize) -> &'static [u8]
    ensures { result.now ≡ take n numbers.now }
{
    &numbers[..n.min(numbers.len())]
}

fn behind(numbers: &'static [u8], n: usize) -> &'static [u8]
    ensures { result.now ≡ drop n numbers.now }
{
    &numbers[n.min(numbers.len())..]
}

/// The part of the numbers from one start to the next.
pub fn cell(starts: &[u16], numbers: &'static [u8], k: usize) -> &'static [u8]
    requires { k + 1 < length starts.now }
    ensures { result.now ≡ cell_at starts.now numbers.now k }
{
    let from = usize::from(starts[k]);
    let to = usize::from(starts[k + 1]);
    front(behind(numbers, from), to.saturating_sub(from))
}

/// The place of an opcode among those of both maps.
pub fn opcode_place(map: OpMap, opcode: u8) -> usize
    ensures value { result ≡ place_of map opcode }
    ensures below { result < 512 }
{
    match map {
        OpMap::One => usize::from(opcode),
        OpMap::Two => 256 + usize::from(opcode),
    }
}

/// The place of a class among all.
pub fn class_place(class: Class) -> usize
    ensures value { result ≡ place_among class }
    ensures below { result < 50 }
{
    class as usize
}

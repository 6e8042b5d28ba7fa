ghost use Rattle.std.specs.Prelude.{◌≡◌, take, drop};
ghost use Rattle.rz_isa.specs.Decoded.{parts_of as parts_by};
ghost use Rattle.rz_decode.specs.Calls.Views.{front_view, parts_view};

use crate::fit::{imm_part, rm_part};
use crate::front::Front;
use rz_isa::Row;

/// The parts of a spelling (Intel SDM, volume 2, figure 2-1); `rm` is ModRM, SIB and displacement.
#[derive(Clone, Copy)]
pub struct Parts<'a> {
    pub prefixes: &'a [u8],
    pub rex: Option<u8>,
    pub opcode: u8,
    pub rm: &'a [u8],
    pub imm: &'a [u8],
}

// The first n bytes, or all where there are fewer.
fn first(bytes: &[u8], n: usize) -> &[u8]
    ensures { result.now ≡ take n bytes.now }
{
    &bytes[..n.min(bytes.len())]
}

fn behind(bytes: &[u8], n: usize) -> &[u8]
    ensures { result.now ≡ drop n bytes.now }
{
    &bytes[n.min(bytes.len())..]
}

/// The parts, where all of them are there.
pub fn parts_of<'a>(row: &Row, f: &Front<'a>) -> Parts<'a>
    ensures { parts_view result ≡ parts_by row.now (front_view f.now) }
{
    let rm_len = rm_part(row.rm, f.opcode.rest);
    let imm_len = imm_part(row, f);
    Parts {
        prefixes: f.prefixes,
        rex: f.rex,
        opcode: f.opcode.byte,
        rm: first(f.opcode.rest, rm_len),
        imm: first(behind(f.opcode.rest, rm_len), imm_len),
    }
}

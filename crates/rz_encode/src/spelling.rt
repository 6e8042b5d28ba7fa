ghost use Rattle.std.specs.Prelude.{◌≡◌, ◌≤◌, ◌<◌, ◌+◌, [], ◌==◌, length, IsTrue};
ghost use Rattle.rz_isa.specs.Spelling.{rex_bytes, escape as escape_of, bytes_of};
ghost use Rattle.rz_isa.specs.Having.{can_have, is_half as is_half_width};
ghost use Rattle.rz_isa.specs.Regular.{is_regular, digit_small};
ghost use Rattle.rz_isa.specs.Canonical.{low_32 as low_32_of, repeat_prefix as repeat_prefix_of, rex_for as rex_by, is_zero as is_zero_number, is_small as is_small_number, mode_of as mode_by, disp_bytes, scale_bits as scale_bits_of, index_bits as index_bits_of, sib_for as sib_by, plain_or_sib, memory_bytes, place_bytes, reg_bits as reg_bits_of, rm_bytes, imm_value as imm_value_of, parts_for, reaches};
ghost use Rattle.rz_encode.specs.Calls.Writer.{Wrote, byte_given};

use crate::reach::offset;
use crate::writer::{put, put_little, put_some, put_two};
use rz_isa::having::{code_of, needs_rex, opcode_of, rex_needed};
use rz_isa::spelled::imm_len;
use rz_isa::{F3Rule, Fields, ImmKind, Mem, OpMap, Place, RmRule, Row};
use rz_num::Width;

// ---- prefixes, REX and the escape (Intel SDM, volume 2, sections 2.1.1, 2.2.1 and 2.1.2)

pub fn is_half(w: Width) -> bool
    ensures { result ≡ is_half_width w }
{
    matches!(w, Width::W16)
}

/// The byte of the repeat prefix, 0 where none stands.
pub fn repeat_prefix(rule: F3Rule, rep: u8) -> u8
    ensures { result ≡ repeat_prefix_of rule rep }
{
    match rule {
        F3Rule::Required => 0xf3,
        F3Rule::Repeats | F3Rule::RepeatsBoth => rep,
        _ => 0,
    }
}

fn byte_if(stands: bool, byte: u8) -> Option<u8>
    ensures { result ≡ byte_given stands byte }
{
    if stands { Some(byte) } else { None }
}

fn rex_for(row: &Row, f: &Fields) -> Option<u8>
    requires { IsTrue (can_have row.now f.now) }
    ensures { result ≡ rex_by row.now f.now }
{
    if needs_rex(row, f) {
        Some((0x40 + rex_needed(row, f)) as u8)
    } else {
        None
    }
}

fn escape(map: OpMap) -> Option<u8>
    ensures { rex_bytes result ≡ escape_of map }
{
    match map {
        OpMap::One => None,
        OpMap::Two => Some(0x0f),
    }
}

// ---- ModRM, SIB and displacement (sections 2.1.3 to 2.1.5)

fn low_32(z: i32) -> u32
    ensures { result ≡ low_32_of z }
{
    z.cast_unsigned()
}

fn is_zero(z: i32) -> bool
    ensures { result ≡ is_zero_number z }
{
    z == 0
}

fn is_small(z: i32) -> bool
    ensures { result ≡ is_small_number z }
{
    -128 <= z && z < 128
}

/// Mod 00, 01 or 10: no displacement, one byte or four.
pub fn mode_of(low: u8, disp: i32) -> u8
    ensures value { result ≡ mode_by low disp }
    ensures small { result ≤ 2 }
{
    if is_zero(disp) && low != 5 {
        0
    } else if is_small(disp) {
        1
    } else {
        2
    }
}

fn scale_bits(scale: u8) -> u8
    ensures value { result ≡ scale_bits_of scale }
    ensures small { result ≤ 3 }
{
    match scale {
        1 => 0,
        2 => 1,
        4 => 2,
        _ => 3,
    }
}

// Index 100 is none.
fn index_bits(index: Option<u8>) -> u8
    ensures value { result ≡ index_bits_of index }
    ensures small { result ≤ 7 }
{
    match index {
        None => 4,
        Some(i) => i % 8,
    }
}

fn sib_for(low: u8, index: Option<u8>, scale: u8) -> u8
    requires { low < 8 }
    ensures { result ≡ sib_by low index scale }
{
    64 * scale_bits(scale) + 8 * index_bits(index) + low
}

fn put_disp(mode: u8, disp: i32, n: usize, out: &mut [u8]) -> usize
    requires { n + 4 ≤ length out.old }
    ensures { Wrote out.old n out.new result (disp_bytes mode disp) }
{
    let low = u64::from(low_32(disp));
    match mode {
        0 => n,
        1 => put_little(1, low, n, out),
        _ => put_little(4, low, n, out),
    }
}

fn put_head(
    reg: u8,
    low: u8,
    index: Option<u8>,
    scale: u8,
    mode: u8,
    n: usize,
    out: &mut [u8],
) -> usize
    requires reg { reg < 8 }
    requires low { low < 8 }
    requires mode { mode ≤ 2 }
    requires room { n + 2 ≤ length out.old }
    ensures wrote { Wrote out.old n out.new result (plain_or_sib reg low index scale [] mode) }
    ensures few { result ≤ n + 2 }
{
    match index {
        None => {
            if low == 4 {
                put_two(64 * mode + 8 * reg + 4, sib_for(low, None, scale), n, out)
            } else {
                put(64 * mode + 8 * reg + low, n, out)
            }
        }
        Some(i) => put_two(
            64 * mode + 8 * reg + 4,
            sib_for(low, Some(i), scale),
            n,
            out,
        ),
    }
}

fn put_memory(reg: u8, m: Mem, n: usize, out: &mut [u8]) -> usize
    requires reg { reg < 8 }
    requires room { n + 6 ≤ length out.old }
    ensures { Wrote out.old n out.new result (memory_bytes reg m.base m.index m.scale m.disp) }
{
    match m.base {
        None => {
            let a = put_two(8 * reg + 4, sib_for(5, m.index, m.scale), n, out);
            put_little(4, u64::from(low_32(m.disp)), a, out)
        }
        Some(base) => {
            let mode = mode_of(base % 8, m.disp);
            let a = put_head(reg, base % 8, m.index, m.scale, mode, n, out);
            put_disp(mode, m.disp, a, out)
        }
    }
}

fn put_place(reg: u8, next: u64, place: Place, n: usize, out: &mut [u8]) -> usize
    requires reg { reg < 8 }
    requires room { n + 6 ≤ length out.old }
    ensures { Wrote out.old n out.new result (place_bytes reg next place) }
{
    match place {
        Place::Reg(r) => put(192 + 8 * reg + (code_of(r) % 8) as u8, n, out),
        Place::Mem(m) => put_memory(reg, m, n, out),
        Place::At(address) => {
            let a = put(8 * reg + 5, n, out);
            put_little(4, offset(next, address), a, out)
        }
    }
}

fn reg_bits(digit: Option<u8>, code: u32) -> u8
    requires { IsTrue (digit_small digit) }
    ensures value { result ≡ reg_bits_of digit code }
    ensures small { result < 8 }
{
    match digit {
        None => (code % 8) as u8,
        Some(d) => d,
    }
}

fn put_rm(row: &Row, code: u32, next: u64, place: Place, n: usize, out: &mut [u8]) -> usize
    requires digit { IsTrue (digit_small row.now.digit) }
    requires room { n + 6 ≤ length out.old }
    ensures { Wrote out.old n out.new result (rm_bytes row.now.rm row.now.digit code next place) }
{
    match row.rm {
        None => n,
        Some(RmRule::Fixed(b)) => put(b, n, out),
        Some(_) => put_place(reg_bits(row.digit, code), next, place, n, out),
    }
}

// ---- all of it

fn imm_value(imm: Option<ImmKind>, next: u64, n: u64) -> u64
    ensures { result ≡ imm_value_of imm next n }
{
    match imm {
        Some(ImmKind::J8 | ImmKind::J32) => offset(next, n),
        _ => n,
    }
}

/// Writes the spelling by the row and the fields at the front of the buffer, the next
/// instruction's address given, and answers where it ends.
pub fn spell(row: &Row, f: &Fields, next: u64, out: &mut [u8]) -> usize
    requires regular { IsTrue (is_regular row.now) }
    requires had { IsTrue (can_have row.now f.now) }
    requires reach { IsTrue (reaches row.now f.now next) }
    requires room { length out.old ≡ 15 }
    ensures { Wrote out.old 0 out.new result (bytes_of row.now (parts_for row.now f.now next)) }
{
    let rep = repeat_prefix(row.f3, f.rep);
    let a = put_some(byte_if(is_half(f.w), 0x66), 0, out);
    let b = put_some(byte_if(rep != 0, rep), a, out);
    let c = put_some(rex_for(row, f), b, out);
    let d = put_some(escape(row.map), c, out);
    let e = put(opcode_of(row, f) as u8, d, out);
    let g = put_rm(row, code_of(f.reg), next, f.rm, e, out);
    put_little(
        imm_len(row.imm, f.w),
        imm_value(row.imm, next, f.imm),
        g,
        out,
    )
}

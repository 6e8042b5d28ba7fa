ghost use Rattle.std.specs.Prelude.{◌≡◌, ◌≤◌, length};
ghost use Rattle.rz_isa.specs.Spelling.{bit_w as bit_w_of, times as times_among, escape, is_met, most as most_of, most_66 as most_66_of, most_67 as most_67_of, most_f0 as most_f0_of, most_f2 as most_f2_of, may_name_memory as may_name_memory_by, one_repeat as one_repeat_among, rm_is_memory as rm_is_memory_bytes, lock_fits as lock_fits_parts, takes_66 as takes_66_by, is_allowed as is_allowed_by, f3_demand, prefixes_fit as prefixes_fit_row, w_demand, b_demand, opcode_fits as opcode_fits_row, disp_len as disp_len_of, rm_len as rm_len_of, second as second_of, rule_fits as rule_fits_byte, width_of as width_by};
ghost use Rattle.rz_isa.specs.Table.{same_map as same_maps};
ghost use Rattle.rz_isa.specs.Decoded.{takes_rm as takes_rm_of, rm_part as rm_part_of, imm_part as imm_part_of, front_len as front_len_of, suits as suits_row};
ghost use Rattle.rz_decode.specs.Calls.Views.{front_view};

use crate::front::{Front, times};
use crate::rex::{bit_b, bit_w};
use rz_isa::spelled::imm_len;
use rz_isa::{F3Rule, Letter, Op, OpMap, RmRule, Row, Size};
use rz_num::Width;

// ---- prefixes (Intel SDM, volume 2, section 2.1.1)

fn takes_66(size: Size) -> bool
    ensures { result ≡ takes_66_by size }
{
    match size {
        Size::V | Size::D => true,
        _ => false,
    }
}

fn most_66(row: &Row) -> usize
    ensures { result ≡ most_66_of row.now }
{
    match row.map {
        OpMap::Two if row.opcode == 0x1f => 15,
        _ if takes_66(row.size) => 1,
        _ => 0,
    }
}

fn most_67(row: &Row) -> usize
    ensures { result ≡ most_67_of row.now }
{
    match row.map {
        OpMap::One if row.opcode == 0xe8 => 1,
        _ => 0,
    }
}

fn most_f2(rule: F3Rule) -> usize
    ensures { result ≡ most_f2_of rule }
{
    match rule {
        F3Rule::RepeatsBoth => 1,
        _ => 0,
    }
}

fn may_name_memory(rule: Option<RmRule>) -> bool
    ensures { result ≡ may_name_memory_by rule }
{
    matches!(rule, Some(RmRule::Any | RmRule::MemoryOnly))
}

fn most_f0(row: &Row) -> usize
    ensures { result ≡ most_f0_of row.now }
{
    if row.lock && may_name_memory(row.rm) {
        1
    } else {
        0
    }
}

fn most(row: &Row, prefix: u8) -> usize
    ensures { result ≡ most_of row.now prefix }
{
    match prefix {
        0x2e | 0x3e => 1,
        0x66 => most_66(row),
        0x67 => most_67(row),
        0xf0 => most_f0(row),
        0xf2 => most_f2(row.f3),
        0xf3 => 1,
        _ => 0,
    }
}

fn is_allowed(row: &Row, prefixes: &[u8]) -> bool
    ensures { result ≡ is_allowed_by row.now prefixes.now }
{
    prefixes
        .iter()
        .all(|b| times(*b, prefixes) <= most(row, *b))
}

fn f3_fits(rule: F3Rule, count: usize) -> bool
    ensures { result ≡ is_met (f3_demand rule) count }
{
    match rule {
        F3Rule::No => count == 0,
        F3Rule::Required => count == 1,
        _ => true,
    }
}

// F2 and F3 don't stand together.
fn one_repeat(prefixes: &[u8]) -> bool
    ensures { result ≡ one_repeat_among prefixes.now }
{
    let f2 = times(0xf2, prefixes);
    f2 <= 1 && times(0xf3, prefixes) <= 1 - f2
}

fn prefixes_fit(row: &Row, prefixes: &[u8]) -> bool
    ensures { result ≡ prefixes_fit_row row.now prefixes.now }
{
    is_allowed(row, prefixes) && f3_fits(row.f3, times(0xf3, prefixes)) && one_repeat(prefixes)
}

fn rm_is_memory(rm: &[u8]) -> bool
    ensures { result ≡ rm_is_memory_bytes rm.now }
{
    match rm {
        [] => true,
        [m, ..] => *m / 64 != 3,
    }
}

// Where F0 stands the ModRM byte names memory.
fn lock_fits(prefixes: &[u8], rm: &[u8]) -> bool
    ensures { result ≡ lock_fits_parts prefixes.now rm.now }
{
    times(0xf0, prefixes) == 0 || rm_is_memory(rm)
}

// ---- REX and the opcode (sections 2.2.1 and 2.1.2)

fn w_fits(size: Size, w: u8) -> bool
    ensures { result ≡ is_met (w_demand size) w }
{
    match size {
        Size::WQ => w == 1,
        Size::D => w == 0,
        _ => true,
    }
}

// 90 is an exchange with REX.B alone, and a Nop without it.
fn b_fits(op: Op, map: OpMap, opcode: u8, b: u8) -> bool
    ensures { result ≡ is_met (b_demand op map opcode) b }
{
    match op {
        Op::Xchg(Letter::O, Letter::A) => opcode != 0x90 || b == 1,
        Op::Nop => match map {
            OpMap::One => opcode != 0x90 || b == 0,
            OpMap::Two => true,
        },
        _ => true,
    }
}

fn opcode_fits(row: &Row, opcode: u8) -> bool
    ensures { result ≡ opcode_fits_row row.now opcode }
{
    row.opcode <= opcode && u16::from(opcode) < u16::from(row.opcode) + u16::from(row.span)
}

fn same_map(a: OpMap, b: OpMap) -> bool
    ensures { result ≡ same_maps a b }
{
    matches!((a, b), (OpMap::One, OpMap::One) | (OpMap::Two, OpMap::Two))
}

// ---- ModRM, SIB and displacement (sections 2.1.3 to 2.1.5)

fn disp_len(mode: u8, base: u8) -> usize
    ensures value { result ≡ disp_len_of mode base }
    ensures small { result ≤ 4 }
{
    match mode {
        1 => 1,
        2 => 4,
        0 if base == 5 => 4,
        _ => 0,
    }
}

fn rm_len(m: u8, sib: u8) -> usize
    ensures value { result ≡ rm_len_of m sib }
    ensures small { result ≤ 6 }
{
    if m / 64 == 3 {
        1
    } else if m % 8 == 4 {
        2 + disp_len(m / 64, sib % 8)
    } else {
        1 + disp_len(m / 64, m % 8)
    }
}

/// The second byte, or 0.
pub fn second(bytes: &[u8]) -> u8
    ensures { result ≡ second_of bytes.now }
{
    match bytes {
        [_, b, ..] => *b,
        _ => 0,
    }
}

fn rule_fits(rule: RmRule, m: u8) -> bool
    ensures { result ≡ rule_fits_byte rule m }
{
    match rule {
        RmRule::Any => true,
        RmRule::MemoryOnly => m / 64 != 3,
        RmRule::RegisterOnly => m / 64 == 3,
        RmRule::Fixed(b) => m == b,
    }
}

fn digit_fits(digit: Option<u8>, reg: u8) -> bool
    ensures { result ≡ is_met digit reg }
{
    match digit {
        None => true,
        Some(d) => reg == d,
    }
}

fn takes_rm(rule: Option<RmRule>, digit: Option<u8>, rest: &[u8]) -> bool
    ensures { result ≡ takes_rm_of rule digit rest.now }
{
    match (rule, rest) {
        (Some(rule), [m, ..]) => rule_fits(rule, *m) && digit_fits(digit, *m / 8 % 8),
        _ => true,
    }
}

/// How many bytes ModRM, SIB and displacement have.
pub fn rm_part(rule: Option<RmRule>, rest: &[u8]) -> usize
    ensures value { result ≡ rm_part_of rule rest.now }
    ensures small { result ≤ 6 }
{
    match (rule, rest) {
        (None, _) => 0,
        (Some(_), []) => 1,
        (Some(_), [m, ..]) => rm_len(*m, second(rest)),
    }
}

// ---- width and immediate (sections 2.2.1.2, 2.2.1.5 and 3.1.1)

fn width_of(size: Size, w: u8, count_66: usize) -> Width
    ensures { result ≡ width_by size w count_66 }
{
    match size {
        Size::B | Size::N => Width::W8,
        Size::Q | Size::WQ => Width::W64,
        Size::V | Size::Y if w == 1 => Width::W64,
        Size::V | Size::D if count_66 > 0 => Width::W16,
        _ => Width::W32,
    }
}

/// The width by the size class, REX.W and 66.
pub fn width(row: &Row, rex: Option<u8>, prefixes: &[u8]) -> Width
    ensures { result ≡ width_by row.now.size (bit_w_of rex) (times_among 0x66 prefixes.now) }
{
    width_of(row.size, bit_w(rex), times(0x66, prefixes))
}

/// How many bytes the immediate has.
pub fn imm_part(row: &Row, f: &Front) -> usize
    ensures value { result ≡ imm_part_of row.now (front_view f.now) }
    ensures small { result ≤ 8 }
{
    imm_len(row.imm, width(row, f.rex, f.prefixes))
}

// ---- all of it

fn escape_len(map: OpMap) -> usize
    ensures value { result ≡ length (escape map) }
    ensures small { result ≤ 1 }
{
    match map {
        OpMap::One => 0,
        OpMap::Two => 1,
    }
}

/// How many bytes the shortest spelling by the row has that has the front.
pub fn front_len(row: &Row, f: &Front) -> usize
    requires { length f.now.prefixes.now ≤ 16 }
    ensures { result ≡ front_len_of row.now (front_view f.now) }
{
    let rex = if f.rex.is_some() { 1 } else { 0 };
    let behind = 1 + (rm_part(row.rm, f.opcode.rest) + imm_part(row, f));
    f.prefixes.len() + (rex + (escape_len(row.map) + behind))
}

/// The row takes the front, and such a spelling has at most 15 bytes.
pub fn suits(row: &Row, f: &Front) -> bool
    requires { length f.now.prefixes.now ≤ 16 }
    ensures { result ≡ suits_row row.now (front_view f.now) }
{
    same_map(row.map, f.opcode.map)
        && opcode_fits(row, f.opcode.byte)
        && prefixes_fit(row, f.prefixes)
        && w_fits(row.size, bit_w(f.rex))
        && b_fits(row.op, row.map, f.opcode.byte, bit_b(f.rex))
        && takes_rm(row.rm, row.digit, f.opcode.rest)
        && lock_fits(f.prefixes, f.opcode.rest)
        && front_len(row, f) <= 15
}

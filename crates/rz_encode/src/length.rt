ghost use Rattle.std.specs.Prelude.{◌≡◌, ◌≤◌};
ghost use Rattle.rz_encode.specs.Calls.Length.{one_if as one_if_of, escape_count as escape_count_of, disp_count as disp_count_of, head_count as head_count_of, memory_count as memory_count_of, place_count as place_count_of, rm_count as rm_count_of, spelled_count as spelled_count_of};

use crate::spelling::{is_half, mode_of, repeat_prefix};
use rz_isa::having::needs_rex;
use rz_isa::spelled::imm_len;
use rz_isa::{Fields, Mem, OpMap, Place, RmRule, Row};

fn one_if(b: bool) -> usize
    ensures value { result ≡ one_if_of b }
    ensures small { result ≤ 1 }
{
    usize::from(b)
}

fn escape_count(map: OpMap) -> usize
    ensures value { result ≡ escape_count_of map }
    ensures small { result ≤ 1 }
{
    match map {
        OpMap::One => 0,
        OpMap::Two => 1,
    }
}

fn disp_count(mode: u8) -> usize
    ensures value { result ≡ disp_count_of mode }
    ensures small { result ≤ 4 }
{
    match mode {
        0 => 0,
        1 => 1,
        _ => 4,
    }
}

// ModRM, and SIB where one is needed.
fn head_count(low: u8, index: Option<u8>) -> usize
    ensures value { result ≡ head_count_of low index }
    ensures small { result ≤ 2 }
{
    match index {
        None if low != 4 => 1,
        _ => 2,
    }
}

fn memory_count(m: Mem) -> usize
    ensures value { result ≡ memory_count_of m.base m.index m.disp }
    ensures small { result ≤ 6 }
{
    match m.base {
        None => 6,
        Some(b) => head_count(b % 8, m.index) + disp_count(mode_of(b % 8, m.disp)),
    }
}

fn place_count(place: Place) -> usize
    ensures value { result ≡ place_count_of place }
    ensures small { result ≤ 6 }
{
    match place {
        Place::Reg(_) => 1,
        Place::Mem(m) => memory_count(m),
        Place::At(_) => 5,
    }
}

fn rm_count(rule: Option<RmRule>, place: Place) -> usize
    ensures value { result ≡ rm_count_of rule place }
    ensures small { result ≤ 6 }
{
    match rule {
        None => 0,
        Some(RmRule::Fixed(_)) => 1,
        Some(_) => place_count(place),
    }
}

/// How many bytes the spelling by the row and the fields has, at every address.
pub fn spelled_count(row: &Row, f: &Fields) -> usize
    ensures value { result ≡ spelled_count_of row.now f.now }
    ensures small { result ≤ 19 }
{
    one_if(is_half(f.w))
        + (one_if(repeat_prefix(row.f3, f.rep) != 0)
            + (one_if(needs_rex(row, f))
                + (escape_count(row.map) + (1 + (rm_count(row.rm, f.rm) + imm_len(row.imm, f.w))))))
}

ghost use Rattle.std.specs.Prelude.{◌≡◌, ◌<◌, ◌≤◌, length, IsTrue};
ghost use Rattle.rz_isa.specs.Fields.{imm_of as imm_by, rm_place as rm_place_of, reg_field as reg_field_of, reg_number as reg_number_of, repeat_in as repeat_among, rep_of as rep_by, fields as fields_by};
ghost use Rattle.rz_decode.specs.Calls.Views.{parts_view, is_whole_rm};

use crate::fit::width;
use crate::front::times;
use crate::number::{extended, number};
use crate::operand::{place_of, reg_of};
use crate::parts::Parts;
use crate::rex::{bit_b, bit_r};
use rz_isa::having::rm_width;
use rz_isa::{F3Rule, Fields, ImmKind, Place, Reg, RmRule, Row};
use rz_num::{Width, mask};

fn imm_of(imm: Option<ImmKind>, w: Width, next: u64, bytes: &[u8]) -> u64
    requires { length bytes.now ≤ 8 }
    ensures { result ≡ imm_by imm w next bytes.now }
{
    match imm {
        None => 0,
        Some(ImmKind::Ibs | ImmKind::Iz) => mask(w, extended(bytes)),
        Some(ImmKind::J8 | ImmKind::J32) => next.wrapping_add(extended(bytes)),
        Some(ImmKind::Ib | ImmKind::Iw | ImmKind::Iv) => number(bytes),
    }
}

fn reg_field(rm: &[u8]) -> u8
    ensures value { result ≡ reg_field_of rm.now }
    ensures small { result < 8 }
{
    match rm {
        [] => 0,
        [m, ..] => *m / 8 % 8,
    }
}

// The number in the reg field, or where there is no ModRM in the opcode; 0 where the row has neither.
fn reg_number(row: &Row, p: &Parts) -> u8
    ensures { result ≡ reg_number_of row.now.rm row.now.digit row.now.span (parts_view p.now) }
{
    match (row.rm, row.digit) {
        (None, _) if row.span == 8 => p.opcode % 8 + 8 * bit_b(p.rex),
        (Some(RmRule::Any | RmRule::MemoryOnly | RmRule::RegisterOnly), None) => {
            reg_field(p.rm) + 8 * bit_r(p.rex)
        }
        _ => 0,
    }
}

fn rm_place(rule: Option<RmRule>, w: Width, rex: Option<u8>, next: u64, rm: &[u8]) -> Place
    requires { IsTrue (is_whole_rm rm.now) }
    ensures { result ≡ rm_place_of rule w rex next rm.now }
{
    match rule {
        Some(RmRule::Fixed(_)) => Place::Reg(Reg::R(0)),
        _ => place_of(w, rex, next, rm),
    }
}

// The byte of the repeat prefix, 0 where none stands.
fn repeat_in(prefixes: &[u8]) -> u8
    ensures { result ≡ repeat_among prefixes.now }
{
    if times(0xf3, prefixes) > 0 {
        0xf3
    } else if times(0xf2, prefixes) > 0 {
        0xf2
    } else {
        0
    }
}

fn rep_of(rule: F3Rule, repeat: u8) -> u8
    ensures { result ≡ rep_by rule repeat }
{
    match rule {
        F3Rule::Repeats if repeat == 0xf3 => repeat,
        F3Rule::RepeatsBoth => repeat,
        _ => 0,
    }
}

/// The fields that the parts of a spelling have, the next instruction's address given.
pub fn fields(row: &Row, p: &Parts, next: u64) -> Fields
    requires rm { IsTrue (is_whole_rm p.now.rm.now) }
    requires imm { length p.now.imm.now ≤ 8 }
    ensures { result ≡ fields_by row.now (parts_view p.now) next }
{
    let w = width(row, p.rex, p.prefixes);
    Fields {
        w,
        reg: reg_of(w, p.rex, reg_number(row, p)),
        rm: rm_place(row.rm, rm_width(row.op, w), p.rex, next, p.rm),
        cond: if row.span == 16 { p.opcode % 16 } else { 0 },
        imm: imm_of(row.imm, w, next, p.imm),
        rep: rep_of(row.f3, repeat_in(p.prefixes)),
    }
}

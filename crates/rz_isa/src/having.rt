ghost use Rattle.std.specs.Prelude.{◌≡◌, ◌≤◌, ◌<◌, nat_lt};
ghost use Rattle.rz_isa.specs.Having.{is_byte as is_byte_width, is_wide as is_wide_width, has_width as size_has_width, code_of as code_of_reg, is_register as is_register_of, is_first as is_first_of, is_high as is_high_of, is_low_byte as is_low_byte_of, in_reg_field as in_reg_field_of, in_opcode as in_opcode_of, has_reg as row_has_reg, is_number as is_number_of, is_index as is_index_of, is_memory as is_memory_of, names_register as names_register_of, names_memory as names_memory_of, is_first_place as is_first_place_of, has_place as rule_has_place, has_cond as span_has_cond, has_imm as kind_has_imm, has_rep as rule_has_rep, number_in as number_in_of, w_needed as w_needed_of, r_needed as r_needed_of, x_needed as x_needed_of, place_b as place_b_of, b_needed as b_needed_of, rex_needed as rex_needed_of, low_byte_place as low_byte_place_of, high_place as high_place_of, needs_rex as needs_rex_of, bars_rex as bars_rex_of, opcode_of as opcode_of_fields, can_have as can_have_fields};
ghost use Rattle.rz_isa.specs.Fields.{rm_width as rm_width_of};
ghost use Rattle.rz_isa.specs.Spelling.{is_met as is_met_by, b_demand as b_demand_of};
ghost use Rattle.rz_num.specs.Width.{size};

use crate::instruction::{Mem, Place, Reg};
use crate::rows::{F3Rule, ImmKind, Letter, Op, OpMap, RmRule, Row, Size};
use crate::spelled::{Fields, letter_width};
use rz_num::Width;

fn is_byte(w: Width) -> bool
    ensures { result ≡ is_byte_width w }
{
    match w {
        Width::W8 => true,
        _ => false,
    }
}

fn is_wide(w: Width) -> bool
    ensures { result ≡ is_wide_width w }
{
    match w {
        Width::W64 => true,
        _ => false,
    }
}

fn has_width(class: Size, w: Width) -> bool
    ensures { result ≡ size_has_width class w }
{
    match class {
        Size::B => is_byte(w),
        Size::V => !is_byte(w),
        Size::D => match w {
            Width::W16 => true,
            Width::W32 => true,
            _ => false,
        },
        Size::Y => match w {
            Width::W32 => true,
            Width::W64 => true,
            _ => false,
        },
        Size::Q => is_wide(w),
        Size::WQ => is_wide(w),
        Size::N => is_byte(w),
    }
}

/// The number that a spelling has for the register.
pub fn code_of(reg: Reg) -> u32
    ensures value { result ≡ code_of_reg reg }
    ensures small { result < 260 }
{
    match reg {
        Reg::R(n) => u32::from(n),
        Reg::High(n) => u32::from(n) + 4,
    }
}

fn is_register(w: Width, reg: Reg) -> bool
    ensures { result ≡ is_register_of w reg }
{
    match reg {
        Reg::R(n) => n < 16,
        Reg::High(n) => is_byte(w) && n < 4,
    }
}

/// Register 0.
pub fn is_first(reg: Reg) -> bool
    ensures { result ≡ is_first_of reg }
{
    match reg {
        Reg::R(n) => n == 0,
        Reg::High(_) => false,
    }
}

fn is_high(reg: Reg) -> bool
    ensures { result ≡ is_high_of reg }
{
    match reg {
        Reg::R(_) => false,
        Reg::High(_) => true,
    }
}

fn is_low_byte(w: Width, reg: Reg) -> bool
    ensures { result ≡ is_low_byte_of w reg }
{
    match w {
        Width::W8 => match reg {
            Reg::R(n) => n >= 4,
            Reg::High(_) => false,
        },
        _ => false,
    }
}

fn in_reg_field(rule: Option<RmRule>, digit: Option<u8>) -> bool
    ensures { result ≡ in_reg_field_of rule digit }
{
    match rule {
        None => false,
        Some(RmRule::Fixed(_)) => false,
        Some(_) => match digit {
            Some(_) => false,
            None => true,
        },
    }
}

fn in_opcode(rule: Option<RmRule>, span: u8) -> bool
    ensures { result ≡ in_opcode_of rule span }
{
    match rule {
        None => span == 8,
        Some(_) => false,
    }
}

fn has_reg(row: &Row, w: Width, reg: Reg) -> bool
    ensures { result ≡ row_has_reg row.now w reg }
{
    if in_reg_field(row.rm, row.digit) || in_opcode(row.rm, row.span) {
        is_register(w, reg)
    } else {
        is_first(reg)
    }
}

fn is_number(number: Option<u8>) -> bool
    ensures { result ≡ is_number_of number }
{
    match number {
        None => true,
        Some(n) => n < 16,
    }
}

fn is_index(index: Option<u8>, scale: u8) -> bool
    ensures { result ≡ is_index_of index scale }
{
    match index {
        None => scale == 1,
        Some(n) => n < 16 && n != 4 && (scale == 1 || scale == 2 || scale == 4 || scale == 8),
    }
}

fn is_memory(m: Mem) -> bool
    ensures { result ≡ is_memory_of m }
{
    is_number(m.base) && is_index(m.index, m.scale)
}

fn names_register(w: Width, place: Place) -> bool
    ensures { result ≡ names_register_of w place }
{
    match place {
        Place::Reg(reg) => is_register(w, reg),
        _ => false,
    }
}

fn names_memory(place: Place) -> bool
    ensures { result ≡ names_memory_of place }
{
    match place {
        Place::Reg(_) => false,
        Place::Mem(m) => is_memory(m),
        Place::At(_) => true,
    }
}

fn is_first_place(place: Place) -> bool
    ensures { result ≡ is_first_place_of place }
{
    match place {
        Place::Reg(reg) => is_first(reg),
        _ => false,
    }
}

fn has_place(rule: Option<RmRule>, w: Width, place: Place) -> bool
    ensures { result ≡ rule_has_place rule w place }
{
    match rule {
        None => is_first_place(place),
        Some(RmRule::Fixed(_)) => is_first_place(place),
        Some(RmRule::Any) => names_register(w, place) || names_memory(place),
        Some(RmRule::MemoryOnly) => names_memory(place),
        Some(RmRule::RegisterOnly) => names_register(w, place),
    }
}

fn has_cond(span: u8, cond: u8) -> bool
    ensures { result ≡ span_has_cond span cond }
{
    if span == 16 { cond < 16 } else { cond == 0 }
}

fn has_imm(kind: Option<ImmKind>, w: Width, imm: u64) -> bool
    ensures { result ≡ kind_has_imm kind w imm }
{
    match kind {
        None => imm == 0,
        Some(ImmKind::Ib) => imm < 0x100,
        Some(ImmKind::Ibs) => match w {
            Width::W8 => imm < 0x100,
            Width::W16 => imm < 0x80 || (0xff80 <= imm && imm < 0x1_0000),
            Width::W32 => imm < 0x80 || (0xffff_ff80 <= imm && imm < 0x1_0000_0000),
            Width::W64 => imm < 0x80 || 0xffff_ffff_ffff_ff80 <= imm,
        },
        Some(ImmKind::Iw) => imm < 0x1_0000,
        Some(ImmKind::Iz) => match w {
            Width::W64 => imm < 0x8000_0000 || 0xffff_ffff_8000_0000 <= imm,
            _ => is_cut(w, imm),
        },
        Some(ImmKind::Iv) => is_cut(w, imm),
        Some(ImmKind::J8) => true,
        Some(ImmKind::J32) => true,
    }
}

fn is_cut(w: Width, imm: u64) -> bool
    ensures { let n = size w in result ≡ nat_lt imm n }
{
    match w {
        Width::W8 => imm < 0x100,
        Width::W16 => imm < 0x1_0000,
        Width::W32 => imm < 0x1_0000_0000,
        Width::W64 => true,
    }
}

fn has_rep(rule: F3Rule, rep: u8) -> bool
    ensures { result ≡ rule_has_rep rule rep }
{
    match rule {
        F3Rule::Repeats => rep == 0 || rep == 0xf3,
        F3Rule::RepeatsBoth => rep == 0 || rep == 0xf2 || rep == 0xf3,
        _ => rep == 0,
    }
}

fn number_in(number: Option<u8>) -> u32
    ensures { result ≡ number_in_of number }
{
    match number {
        None => 0,
        Some(n) => u32::from(n),
    }
}

fn w_needed(class: Size, w: Width) -> u32
    ensures value { result ≡ w_needed_of class w }
    ensures small { result ≤ 1 }
{
    match class {
        Size::WQ => 1,
        Size::V => if is_wide(w) { 1 } else { 0 },
        Size::Y => if is_wide(w) { 1 } else { 0 },
        _ => 0,
    }
}

fn r_needed(row: &Row, f: &Fields) -> u32
    ensures value { result ≡ r_needed_of row.now f.now }
    ensures small { result ≤ 64 }
{
    if in_reg_field(row.rm, row.digit) {
        code_of(f.reg) / 8
    } else {
        0
    }
}

fn x_needed(place: Place) -> u32
    ensures value { result ≡ x_needed_of place }
    ensures small { result ≤ 31 }
{
    match place {
        Place::Mem(m) => number_in(m.index) / 8,
        _ => 0,
    }
}

fn place_b(place: Place) -> u32
    ensures value { result ≡ place_b_of place }
    ensures small { result ≤ 64 }
{
    match place {
        Place::Reg(reg) => code_of(reg) / 8,
        Place::Mem(m) => number_in(m.base) / 8,
        Place::At(_) => 0,
    }
}

fn b_needed(row: &Row, f: &Fields) -> u32
    ensures value { result ≡ b_needed_of row.now f.now }
    ensures small { result ≤ 64 }
{
    if in_opcode(row.rm, row.span) {
        code_of(f.reg) / 8
    } else {
        place_b(f.rm)
    }
}

/// The bits of REX that the fields need.
pub fn rex_needed(row: &Row, f: &Fields) -> u32
    ensures { result ≡ rex_needed_of row.now f.now }
{
    8 * w_needed(row.size, f.w) + 4 * r_needed(row, f) + 2 * x_needed(f.rm) + b_needed(row, f)
}

fn low_byte_place(w: Width, place: Place) -> bool
    ensures { result ≡ low_byte_place_of w place }
{
    match place {
        Place::Reg(reg) => is_low_byte(w, reg),
        _ => false,
    }
}

fn high_place(place: Place) -> bool
    ensures { result ≡ high_place_of place }
{
    match place {
        Place::Reg(reg) => is_high(reg),
        _ => false,
    }
}

/// The width of the ModRM operand.
pub fn rm_width(op: Op, w: Width) -> Width
    ensures { result ≡ rm_width_of op w }
{
    match op {
        Op::Extend(_, _, source) => letter_width(source, w),
        _ => w,
    }
}

/// A spelling with the fields has REX.
pub fn needs_rex(row: &Row, f: &Fields) -> bool
    ensures { result ≡ needs_rex_of row.now f.now }
{
    0 < rex_needed(row, f) || is_low_byte(f.w, f.reg) || low_byte_place(rm_width(row.op, f.w), f.rm)
}

fn bars_rex(f: &Fields) -> bool
    ensures { result ≡ bars_rex_of f.now }
{
    is_high(f.reg) || high_place(f.rm)
}

/// The last byte of the opcode.
pub fn opcode_of(row: &Row, f: &Fields) -> u32
    ensures { result ≡ opcode_of_fields row.now f.now }
{
    u32::from(row.opcode)
        + if in_opcode(row.rm, row.span) {
            code_of(f.reg) % 8
        } else {
            u32::from(f.cond)
        }
}

fn b_demand(op: Op, map: OpMap, opcode: u32) -> Option<u32>
    ensures { result ≡ b_demand_of op map opcode }
{
    match op {
        Op::Xchg(Letter::O, Letter::A) => if opcode == 0x90 { Some(1) } else { None },
        Op::Nop => match map {
            OpMap::One => if opcode == 0x90 { Some(0) } else { None },
            OpMap::Two => None,
        },
        _ => None,
    }
}

fn is_met(demand: Option<u32>, n: u32) -> bool
    ensures { result ≡ is_met_by demand n }
{
    match demand {
        None => true,
        Some(d) => n == d,
    }
}

/// Whether the row can have these fields at some address.
pub fn can_have(row: &Row, f: &Fields) -> bool
    ensures { result ≡ can_have_fields row.now f.now }
{
    has_width(row.size, f.w)
        && has_reg(row, f.w, f.reg)
        && has_place(row.rm, rm_width(row.op, f.w), f.rm)
        && has_cond(row.span, f.cond)
        && has_imm(row.imm, f.w, f.imm)
        && has_rep(row.f3, f.rep)
        && !(bars_rex(f) && needs_rex(row, f))
        && is_met(
            b_demand(row.op, row.map, opcode_of(row, f)),
            b_needed(row, f),
        )
}

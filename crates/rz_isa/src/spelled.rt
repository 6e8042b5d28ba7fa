ghost use Rattle.std.specs.Prelude.{◌≡◌, ◌≤◌};
ghost use Rattle.rz_isa.specs.Spelling.{imm_len as imm_len_of};
ghost use Rattle.rz_isa.specs.Fields.{build_op, place_at as place_of_letter, operand_at as operand_of_letter, reg_at as reg_of_letter, number_of as number_of_reg, number_at as number_of_letter, count_at as count_of_letter, index_at as index_of_letter, repeat_of as repeat_of_byte, letter_width as width_of_letter};

use crate::instruction::{BitIndex, Count, Insn, Operand, Place, Reg, Rep};
use crate::rows::{ImmKind, Letter, Op, Row};
use rz_flags::Cond;
use rz_num::Width;

/// The fields of a spelling: the width by the size class, the register of the reg field or of
/// the opcode, the ModRM operand, the low four bits of the opcode in a row of span 16, the
/// immediate or the direct target, and the byte of the repeat prefix in a row of repeats.
/// What the row hasn't is 0, `W8`, `R(0)` or the register `R(0)`.
#[derive(Clone, Copy)]
pub struct Fields {
    pub w: Width,
    pub reg: Reg,
    pub rm: Place,
    pub cond: u8,
    pub imm: u64,
    pub rep: u8,
}

fn place_at(letter: Letter, fields: &Fields) -> Place
    ensures { result ≡ place_of_letter letter fields.now }
{
    match letter {
        Letter::G | Letter::O => Place::Reg(fields.reg),
        Letter::A => Place::Reg(Reg::R(0)),
        _ => fields.rm,
    }
}

fn operand_at(letter: Letter, fields: &Fields) -> Operand
    ensures { result ≡ operand_of_letter letter fields.now }
{
    match letter {
        Letter::Imm => Operand::Imm(fields.imm),
        _ => Operand::Place(place_at(letter, fields)),
    }
}

fn reg_at(letter: Letter, fields: &Fields) -> Reg
    ensures { result ≡ reg_of_letter letter fields.now }
{
    match letter {
        Letter::A => Reg::R(0),
        _ => fields.reg,
    }
}

fn number_of(reg: Reg) -> u8
    ensures { result ≡ number_of_reg reg }
{
    match reg {
        Reg::R(n) => n,
        Reg::High(n) => n,
    }
}

fn number_at(letter: Letter, fields: &Fields) -> u8
    ensures { result ≡ number_of_letter letter fields.now }
{
    number_of(reg_at(letter, fields))
}

fn count_at(letter: Letter, fields: &Fields) -> Count
    ensures { result ≡ count_of_letter letter fields.now }
{
    match letter {
        Letter::One => Count::Imm(1),
        Letter::Cl => Count::Cl,
        _ => Count::Imm((fields.imm % 0x100) as u8),
    }
}

fn index_at(letter: Letter, fields: &Fields) -> BitIndex
    ensures { result ≡ index_of_letter letter fields.now }
{
    match letter {
        Letter::Imm => BitIndex::Imm((fields.imm % 0x100) as u8),
        _ => BitIndex::Reg(number_at(letter, fields)),
    }
}

// F3 repeats while what is compared is equal, F2 while it is not.
fn repeat_of(prefix: u8) -> Rep
    ensures { result ≡ repeat_of_byte prefix }
{
    match prefix {
        0xf3 => Rep::WhileEqual,
        0xf2 => Rep::WhileNot,
        _ => Rep::No,
    }
}

/// How many bytes an immediate has at a width (Intel SDM, volume 2, section 3.1.1.3).
pub fn imm_len(imm: Option<ImmKind>, w: Width) -> usize
    ensures value { result ≡ imm_len_of imm w }
    ensures small { result ≤ 8 }
{
    match imm {
        None => 0,
        Some(ImmKind::Ib | ImmKind::Ibs | ImmKind::J8) => 1,
        Some(ImmKind::Iw) => 2,
        Some(ImmKind::J32) => 4,
        Some(ImmKind::Iz) => match w {
            Width::W16 => 2,
            _ => 4,
        },
        Some(ImmKind::Iv) => match w {
            Width::W8 => 1,
            Width::W16 => 2,
            Width::W32 => 4,
            Width::W64 => 8,
        },
    }
}

// The width at which Extend reads its source.
pub fn letter_width(letter: Letter, w: Width) -> Width
    ensures { result ≡ width_of_letter letter w }
{
    match letter {
        Letter::E8 => Width::W8,
        Letter::E16 => Width::W16,
        Letter::E32 => Width::W32,
        _ => w,
    }
}

fn build_from(op: Op, f: &Fields) -> Insn
    ensures { result ≡ build_op op f.now }
{
    match op {
        Op::Arith(op, d, s) => Insn::Arith {
            op,
            w: f.w,
            dst: place_at(d, f),
            src: operand_at(s, f),
        },
        Op::Test(d, s) => Insn::Test {
            w: f.w,
            dst: place_at(d, f),
            src: operand_at(s, f),
        },
        Op::Mov(d, s) => Insn::Mov {
            w: f.w,
            dst: place_at(d, f),
            src: operand_at(s, f),
        },
        Op::Lea(d, s) => Insn::Lea {
            w: f.w,
            dst: number_at(d, f),
            src: place_at(s, f),
        },
        Op::Extend(signed, d, s) => Insn::Extend {
            signed,
            to: f.w,
            from: letter_width(s, f.w),
            dst: number_at(d, f),
            src: place_at(s, f),
        },
        Op::Push(s) => Insn::Push {
            src: operand_at(s, f),
        },
        Op::Pop(d) => Insn::Pop {
            dst: place_at(d, f),
        },
        Op::Leave => Insn::Leave,
        Op::PushFlags => Insn::PushFlags,
        Op::PopFlags => Insn::PopFlags,
        Op::Unary(op, d) => Insn::Unary {
            op,
            w: f.w,
            dst: place_at(d, f),
        },
        Op::Wide(op, s) => Insn::Wide {
            op,
            w: f.w,
            src: place_at(s, f),
        },
        Op::Imul2(d, s) => Insn::Imul2 {
            w: f.w,
            dst: number_at(d, f),
            src: place_at(s, f),
        },
        Op::Imul3(d, s, _) => Insn::Imul3 {
            w: f.w,
            dst: number_at(d, f),
            src: place_at(s, f),
            imm: f.imm,
        },
        Op::Shift(op, d, c) => Insn::Shift {
            op,
            w: f.w,
            dst: place_at(d, f),
            count: count_at(c, f),
        },
        Op::DoubleShift(left, d, s, c) => Insn::DoubleShift {
            left,
            w: f.w,
            dst: place_at(d, f),
            src: number_at(s, f),
            count: count_at(c, f),
        },
        Op::Cmov(d, s) => Insn::Cmov {
            cond: Cond::from_number(f.cond % 16),
            w: f.w,
            dst: number_at(d, f),
            src: place_at(s, f),
        },
        Op::Set(d) => Insn::Set {
            cond: Cond::from_number(f.cond % 16),
            dst: place_at(d, f),
        },
        Op::Jcc => Insn::Jcc {
            cond: Cond::from_number(f.cond % 16),
            target: f.imm,
        },
        Op::Jrcxz => Insn::Jrcxz { target: f.imm },
        Op::Jmp => Insn::Jmp { target: f.imm },
        Op::Call => Insn::Call { target: f.imm },
        Op::CallInd(s) => Insn::CallInd {
            src: place_at(s, f),
        },
        Op::JmpInd(s) => Insn::JmpInd {
            src: place_at(s, f),
        },
        Op::Ret => Insn::Ret {
            pop: (f.imm % 0x1_0000) as u16,
        },
        Op::Convert => Insn::Convert { w: f.w },
        Op::SignFill => Insn::SignFill { w: f.w },
        Op::Xchg(d, s) => Insn::Xchg {
            w: f.w,
            dst: place_at(d, f),
            src: reg_at(s, f),
        },
        Op::CmpXchg(d, s) => Insn::CmpXchg {
            w: f.w,
            dst: place_at(d, f),
            src: reg_at(s, f),
        },
        Op::Xadd(d, s) => Insn::Xadd {
            w: f.w,
            dst: place_at(d, f),
            src: reg_at(s, f),
        },
        Op::Nop => Insn::Nop,
        Op::Bswap(d) => Insn::Bswap {
            w: f.w,
            reg: number_at(d, f),
        },
        Op::BitTest(op, d, i) => Insn::BitTest {
            op,
            w: f.w,
            dst: place_at(d, f),
            index: index_at(i, f),
        },
        Op::Scan(op, d, s) => Insn::Scan {
            op,
            w: f.w,
            dst: number_at(d, f),
            src: place_at(s, f),
        },
        Op::Movs => Insn::Movs {
            w: f.w,
            rep: f.rep == 0xf3,
        },
        Op::Stos => Insn::Stos {
            w: f.w,
            rep: f.rep == 0xf3,
        },
        Op::Cmps => Insn::Cmps {
            w: f.w,
            rep: repeat_of(f.rep),
        },
        Op::Scas => Insn::Scas {
            w: f.w,
            rep: repeat_of(f.rep),
        },
        Op::Flag(op) => Insn::Flag { op },
        Op::Syscall => Insn::Syscall,
        Op::Ud2 => Insn::Ud2,
        Op::Hlt => Insn::Hlt,
        Op::Int3 => Insn::Int3,
    }
}

/// The instruction that the row names with these fields. It takes no memory.
pub fn build(row: &Row, fields: &Fields) -> Insn
    ensures { result ≡ build_op row.now.op fields.now }
{
    build_from(row.op, fields)
}

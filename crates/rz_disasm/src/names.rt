// The names of operations that a field of the instruction tells apart.

ghost use Rattle.std.specs.Prelude.{◌≡◌};
ghost use Rattle.rz_disasm.specs.Names.{cond_name as spec_cond_name, arith_name as spec_arith_name, unary_name as spec_unary_name, wide_name as spec_wide_name, shift_name as spec_shift_name, double_shift_name as spec_double_shift_name, bit_name as spec_bit_name, scan_name as spec_scan_name, flag_name as spec_flag_name, extend_name as spec_extend_name, convert_name as spec_convert_name, sign_fill_name as spec_sign_fill_name, element_name as spec_element_name};

use rz_flags::{ArithOp, BitOp, Cond, FlagOp, ScanOp, ShiftOp, UnaryOp, WideOp};
use rz_num::Width;

/// The ending of a condition (Intel SDM, volume 2, appendix B.1).
pub fn cond_name(cond: Cond) -> &'static str
    ensures { result.now ≡ spec_cond_name cond }
{
    match cond {
        Cond::O => "o",
        Cond::NO => "no",
        Cond::B => "b",
        Cond::AE => "ae",
        Cond::E => "e",
        Cond::NE => "ne",
        Cond::BE => "be",
        Cond::A => "a",
        Cond::S => "s",
        Cond::NS => "ns",
        Cond::P => "p",
        Cond::NP => "np",
        Cond::L => "l",
        Cond::GE => "ge",
        Cond::LE => "le",
        Cond::G => "g",
    }
}

pub fn arith_name(op: ArithOp) -> &'static str
    ensures { result.now ≡ spec_arith_name op }
{
    match op {
        ArithOp::Add => "add",
        ArithOp::Or => "or",
        ArithOp::Adc => "adc",
        ArithOp::Sbb => "sbb",
        ArithOp::And => "and",
        ArithOp::Sub => "sub",
        ArithOp::Xor => "xor",
        ArithOp::Cmp => "cmp",
    }
}

pub fn unary_name(op: UnaryOp) -> &'static str
    ensures { result.now ≡ spec_unary_name op }
{
    match op {
        UnaryOp::Inc => "inc",
        UnaryOp::Dec => "dec",
        UnaryOp::Not => "not",
        UnaryOp::Neg => "neg",
    }
}

pub fn wide_name(op: WideOp) -> &'static str
    ensures { result.now ≡ spec_wide_name op }
{
    match op {
        WideOp::Mul => "mul",
        WideOp::Imul => "imul",
        WideOp::Div => "div",
        WideOp::Idiv => "idiv",
    }
}

pub fn shift_name(op: ShiftOp) -> &'static str
    ensures { result.now ≡ spec_shift_name op }
{
    match op {
        ShiftOp::Rol => "rol",
        ShiftOp::Ror => "ror",
        ShiftOp::Shl => "shl",
        ShiftOp::Shr => "shr",
        ShiftOp::Sar => "sar",
        ShiftOp::Rcl => "rcl",
        ShiftOp::Rcr => "rcr",
    }
}

/// To the left or to the right.
pub fn double_shift_name(left: bool) -> &'static str
    ensures { result.now ≡ spec_double_shift_name left }
{
    match left {
        true => "shld",
        false => "shrd",
    }
}

pub fn bit_name(op: BitOp) -> &'static str
    ensures { result.now ≡ spec_bit_name op }
{
    match op {
        BitOp::Test => "bt",
        BitOp::Set => "bts",
        BitOp::Reset => "btr",
        BitOp::Complement => "btc",
    }
}

pub fn scan_name(op: ScanOp) -> &'static str
    ensures { result.now ≡ spec_scan_name op }
{
    match op {
        ScanOp::Bsf => "bsf",
        ScanOp::Bsr => "bsr",
        ScanOp::Tzcnt => "tzcnt",
        ScanOp::Lzcnt => "lzcnt",
        ScanOp::Popcnt => "popcnt",
    }
}

pub fn flag_name(op: FlagOp) -> &'static str
    ensures { result.now ≡ spec_flag_name op }
{
    match op {
        FlagOp::Clc => "clc",
        FlagOp::Stc => "stc",
        FlagOp::Cmc => "cmc",
        FlagOp::Cld => "cld",
        FlagOp::Std => "std",
    }
}

/// An extension by sign or by zeros, and from which width.
pub fn extend_name(signed: bool, from: Width) -> &'static str
    ensures { result.now ≡ spec_extend_name signed from }
{
    match (signed, from) {
        (true, Width::W32) => "movsxd",
        (true, _) => "movsx",
        (false, _) => "movzx",
    }
}

/// The accumulator extended by its sign, to a width.
pub fn convert_name(w: Width) -> &'static str
    ensures { result.now ≡ spec_convert_name w }
{
    match w {
        Width::W64 => "cdqe",
        Width::W32 => "cwde",
        Width::W16 | Width::W8 => "cbw",
    }
}

/// The sign of the accumulator in all of the register of the high half.
pub fn sign_fill_name(w: Width) -> &'static str
    ensures { result.now ≡ spec_sign_fill_name w }
{
    match w {
        Width::W64 => "cqo",
        Width::W32 => "cdq",
        Width::W16 | Width::W8 => "cwd",
    }
}

/// The ending of a string operation's width.
pub fn element_name(w: Width) -> &'static str
    ensures { result.now ≡ spec_element_name w }
{
    match w {
        Width::W8 => "b",
        Width::W16 => "w",
        Width::W32 => "d",
        Width::W64 => "q",
    }
}

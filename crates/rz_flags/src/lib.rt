//! The flags, the conditions on them and the operations that instructions name.
#![tactic(auto)]

ghost use Rattle.std.specs.Prelude.{◌≡◌, ◌<◌, Some};
ghost use Rattle.rz_flags.specs.Cond.{cond_of as cond_of_number, number_of, holds as holds_for};
ghost use Rattle.rz_flags.specs.Word.{flags_word, flags_in, bit_of, is_set};

/// The status flags CF, PF, AF, ZF, SF and OF and the control flag DF of RFLAGS
/// (Intel SDM, volume 1, section 3.4.3).
#[derive(Clone, Copy, PartialEq, Eq, Debug)]
pub struct Flags {
    pub cf: bool,
    pub pf: bool,
    pub af: bool,
    pub zf: bool,
    pub sf: bool,
    pub df: bool,
    pub of: bool,
}

/// A condition on the flags, in the order of its number
/// (Intel SDM, volume 2, appendix B.1, "Condition Test Field").
#[derive(Clone, Copy, PartialEq, Eq, Debug)]
pub enum Cond {
    O,
    NO,
    B,
    AE,
    E,
    NE,
    BE,
    A,
    S,
    NS,
    P,
    NP,
    L,
    GE,
    LE,
    G,
}

/// Arithmetic and logic with two operands, in the order of the opcode's digit.
#[derive(Clone, Copy, PartialEq, Eq, Debug)]
pub enum ArithOp {
    Add,
    Or,
    Adc,
    Sbb,
    And,
    Sub,
    Xor,
    Cmp,
}

/// Arithmetic and logic with one operand.
#[derive(Clone, Copy, PartialEq, Eq, Debug)]
pub enum UnaryOp {
    Inc,
    Dec,
    Not,
    Neg,
}

/// Products and quotients of the accumulator, at twice the width.
#[derive(Clone, Copy, PartialEq, Eq, Debug)]
pub enum WideOp {
    Mul,
    Imul,
    Div,
    Idiv,
}

/// Rotates and shifts.
#[derive(Clone, Copy, PartialEq, Eq, Debug)]
pub enum ShiftOp {
    Rol,
    Ror,
    Shl,
    Shr,
    Sar,
    Rcl,
    Rcr,
}

/// What a bit test does with the bit after it was copied to CF.
#[derive(Clone, Copy, PartialEq, Eq, Debug)]
pub enum BitOp {
    Test,
    Set,
    Reset,
    Complement,
}

/// Searches for a bit and counts of bits.
#[derive(Clone, Copy, PartialEq, Eq, Debug)]
pub enum ScanOp {
    Bsf,
    Bsr,
    Tzcnt,
    Lzcnt,
    Popcnt,
}

/// Changes of CF and DF alone.
#[derive(Clone, Copy, PartialEq, Eq, Debug)]
pub enum FlagOp {
    Clc,
    Stc,
    Cmc,
    Cld,
    Std,
}

impl Cond {
    /// The condition of a number below 16, as it stands in the low four bits of an opcode.
    pub fn from_number(number: u8) -> Cond
        requires { number < 16 }
        ensures value { result ≡ cond_of_number number }
        ensures number { number_of result ≡ number }
    {
        match number {
            0 => Cond::O,
            1 => Cond::NO,
            2 => Cond::B,
            3 => Cond::AE,
            4 => Cond::E,
            5 => Cond::NE,
            6 => Cond::BE,
            7 => Cond::A,
            8 => Cond::S,
            9 => Cond::NS,
            10 => Cond::P,
            11 => Cond::NP,
            12 => Cond::L,
            13 => Cond::GE,
            14 => Cond::LE,
            _ => Cond::G,
        }
    }

    /// The condition's number, below 16.
    pub fn number(self) -> u8
        ensures value { result ≡ number_of self }
        ensures again { cond_of_number result ≡ self }
        ensures low { result < 16 }
    {
        match self {
            Cond::O => 0,
            Cond::NO => 1,
            Cond::B => 2,
            Cond::AE => 3,
            Cond::E => 4,
            Cond::NE => 5,
            Cond::BE => 6,
            Cond::A => 7,
            Cond::S => 8,
            Cond::NS => 9,
            Cond::P => 10,
            Cond::NP => 11,
            Cond::L => 12,
            Cond::GE => 13,
            Cond::LE => 14,
            Cond::G => 15,
        }
    }
}

/// Whether a condition holds of the flags (Intel SDM, volume 2, appendix B.1, "Condition Test Field").
#[inline(always)]
pub fn holds(cond: Cond, flags: Flags) -> bool
    ensures { result ≡ holds_for cond flags }
{
    match cond {
        Cond::O => flags.of,
        Cond::NO => !flags.of,
        Cond::B => flags.cf,
        Cond::AE => !flags.cf,
        Cond::E => flags.zf,
        Cond::NE => !flags.zf,
        Cond::BE => flags.cf || flags.zf,
        Cond::A => !(flags.cf || flags.zf),
        Cond::S => flags.sf,
        Cond::NS => !flags.sf,
        Cond::P => flags.pf,
        Cond::NP => !flags.pf,
        Cond::L => flags.sf != flags.of,
        Cond::GE => flags.sf == flags.of,
        Cond::LE => flags.zf || flags.sf != flags.of,
        Cond::G => !flags.zf && flags.sf == flags.of,
    }
}

/// The flags as a word: each at its place (CF 0, PF 2, AF 4, ZF 6, SF 7, DF 10, OF 11), and 0x202, the two bits that
/// are always set (Intel SDM, volume 1, section 3.4.3).
pub fn to_word(flags: Flags) -> u64
    ensures value { result ≡ flags_word flags }
    ensures again { flags_in result ≡ Some flags }
{
    0x202
        + bit(flags.cf, 1)
        + bit(flags.pf, 4)
        + bit(flags.af, 16)
        + bit(flags.zf, 64)
        + bit(flags.sf, 128)
        + bit(flags.df, 1024)
        + bit(flags.of, 2048)
}

// The worth of a flag's place where it is set.
fn bit(on: bool, worth: u64) -> u64
    ensures { result ≡ bit_of on worth }
{
    if on { worth } else { 0 }
}

/// The flags of a word, each from its place (CF 0, PF 2, AF 4, ZF 6, SF 7, DF 10, OF 11). None exactly where TF, NT, AC or
/// ID (8, 14, 18, 21) is set; other bits are ignored (Intel SDM, volume 1, section 3.4.3).
pub fn from_word(word: u64) -> Option<Flags>
    ensures { result ≡ flags_in word }
{
    if is_set(word, 8) || is_set(word, 14) || is_set(word, 18) || is_set(word, 21) {
        return None;
    }
    Some(Flags {
        cf: is_set(word, 0),
        pf: is_set(word, 2),
        af: is_set(word, 4),
        zf: is_set(word, 6),
        sf: is_set(word, 7),
        df: is_set(word, 10),
        of: is_set(word, 11),
    })
}

// Whether the bit at a place is set.
fn is_set(word: u64, place: u32) -> bool
    requires { place < 64 }
    ensures { result ≡ is_set word place }
{
    (word >> place) % 2 == 1
}

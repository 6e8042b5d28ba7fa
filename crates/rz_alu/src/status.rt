//! The flags after an operation.

ghost use Rattle.std.specs.Prelude.{◌≡◌};
ghost use Rattle.rz_alu.specs.Status.{flags_of, top_bit, with_carry_overflow};

use rz_flags::Flags;
use rz_num::Width;

// Whether the top bit of a number of the width is set.
#[inline(always)]
pub(crate) fn top_bit(w: Width, a: u64) -> bool
    ensures { result ≡ top_bit w a }
{
    a >= w.sign_bit()
}

// The flags of a result, with CF, OF and AF as they are given.
#[inline(always)]
pub(crate) fn flags_of(w: Width, value: u64, cf: bool, of: bool, af: bool, old: Flags) -> Flags
    ensures { result ≡ flags_of w value cf of af old }
{
    Flags {
        cf,
        pf: ((value % 256) as u8).count_ones() % 2 == 0,
        af,
        zf: value == 0,
        sf: top_bit(w, value),
        df: old.df,
        of,
    }
}

// The flags with CF and OF as they are given.
#[inline(always)]
pub(crate) fn with_carry_overflow(cf: bool, of: bool, old: Flags) -> Flags
    ensures { result ≡ with_carry_overflow cf of old }
{
    Flags { cf, of, ..old }
}

//! Products and quotients with their flags.

ghost use Rattle.std.specs.Prelude.{◌≡◌, ◌<◌, ◌/◌, ◌%◌, not};
ghost use Rattle.rz_num.specs.Width.{size, low_bits};
ghost use Rattle.rz_num.specs.Products.{product, pair, division};
ghost use Rattle.rz_alu.specs.Multiply.{extension, product_flags, product_fits};

use crate::status::{top_bit, with_carry_overflow};
use rz_flags::Flags;
use rz_num::{Width, div_wide, mul_wide};

/// The low half and the high half of the product of two operands, which are cut to the width, and the flags after it: CF
/// and OF are set where the product doesn't fit the width, and the others are left
/// (Intel SDM, volume 2, "MUL", "IMUL"). It takes no memory.
#[inline(always)]
pub fn mul(w: Width, signed: bool, a: u64, b: u64, flags: Flags) -> (u64, u64, Flags)
    ensures low { result.0 ≡ product w signed (low_bits w a) (low_bits w b) % size w }
    ensures high { result.1 ≡ product w signed (low_bits w a) (low_bits w b) / size w }
    ensures flags { result.2 ≡ product_flags w signed (product w signed (low_bits w a) (low_bits w b)) flags }
    ensures fits { result.2.cf ≡ not (product_fits w signed (low_bits w a) (low_bits w b)) }
{
    let (low, high) = mul_wide(w, signed, a, b);
    let more = high != extension(w, signed, low);
    (low, high, with_carry_overflow(more, more, flags))
}

// The high half that extends a low half.
#[inline(always)]
fn extension(w: Width, signed: bool, low: u64) -> u64
    ensures { result ≡ extension w signed low }
{
    if signed && top_bit(w, low) {
        w.greatest()
    } else {
        0
    }
}

/// The quotient and the remainder of the number of two widths with the halves `high` and `low` by `by`; all three are
/// cut to the width. None exactly where the divisor is 0 or the quotient doesn't fit the width
/// (Intel SDM, volume 2, "DIV", "IDIV"). It takes no memory.
pub fn div(w: Width, signed: bool, high: u64, low: u64, by: u64) -> Option<(u64, u64)>
    ensures { result ≡ division w signed (pair w (low_bits w high) (low_bits w low)) (low_bits w by) }
{
    div_wide(w, signed, high, low, by)
}

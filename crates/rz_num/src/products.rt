// Products of two widths, and quotients of numbers of two widths.

ghost use Rattle.std.specs.Prelude.{◌≡◌, ◌<◌, ◌≤◌, ◌+◌, ◌*◌, ◌/◌, ◌%◌, ◌^◌};
ghost use Rattle.rz_num.specs.Width.{low_bits, size, half};
ghost use Rattle.rz_num.specs.Signs.{magnitude, fits_signed, signed_number};
ghost use Rattle.rz_num.specs.Products.{pair, pair_half, product, signed_product, division, signed_division, unsigned_division};

use crate::width::{Width, mask};

/// The low half and the high half of the product of two numbers, which are cut to the width; both and the product are
/// read in two's complement where `signed` is set (Intel SDM, volume 2, "MUL", "IMUL"). It takes no memory.
pub fn mul_wide(w: Width, signed: bool, a: u64, b: u64) -> (u64, u64)
    ensures low { result.0 ≡ product w signed (low_bits w a) (low_bits w b) % size w }
    ensures high { result.1 ≡ product w signed (low_bits w a) (low_bits w b) / size w }
{
    let a = mask(w, a);
    let b = mask(w, b);
    let product = if signed {
        signed_product(w, a, b)
    } else {
        a as u128 * b as u128
    };
    (
        mask(w, (product % (1 << 64)) as u64),
        (product >> w.bits()) as u64,
    )
}

// The product of two signed numbers, as a number of two widths.
fn signed_product(w: Width, a: u64, b: u64) -> u128
    requires a { a < size w }
    requires b { b < size w }
    ensures value { result ≡ signed_product w a b }
    ensures fits { result < size w * size w }
{
    let half = w.sign_bit() as u128;
    let a = a as u128;
    let b = b as u128;
    let negative = (a >= half) != (b >= half);
    with_sign(
        pair_sign_bit(w),
        negative,
        magnitude(half, a) * magnitude(half, b),
    )
}

/// The quotient and the remainder of the number of two widths with the halves `high` and `low` by `by`; all three are
/// cut to the width. Signed numbers are in two's complement: the quotient is rounded toward zero, and the remainder has
/// the sign of the dividend. None exactly where the divisor is 0 or the quotient doesn't fit the width
/// (Intel SDM, volume 2, "DIV", "IDIV"). It takes no memory.
pub fn div_wide(w: Width, signed: bool, high: u64, low: u64, by: u64) -> Option<(u64, u64)>
    ensures { result ≡ division w signed (pair w (low_bits w high) (low_bits w low)) (low_bits w by) }
{
    let n = mask(w, high) as u128 * (w.greatest() as u128 + 1) + mask(w, low) as u128;
    let by = mask(w, by);
    if by == 0 {
        return None;
    }
    if signed {
        signed_division(w, n, by)
    } else {
        unsigned_division(w, n, by)
    }
}

fn unsigned_division(w: Width, n: u128, by: u64) -> Option<(u64, u64)>
    requires n { n < size w * size w }
    requires by { by < size w }
    requires some { 0 < by }
    ensures { result ≡ unsigned_division w n by }
{
    let whole = n / by as u128;
    if whole > w.greatest() as u128 {
        None
    } else {
        Some((whole as u64, (n % by as u128) as u64))
    }
}

fn signed_division(w: Width, n: u128, by: u64) -> Option<(u64, u64)>
    requires n { n < size w * size w }
    requires by { by < size w }
    requires some { 0 < by }
    ensures { result ≡ signed_division w n by }
{
    let half = w.sign_bit() as u128;
    let pair_half = pair_sign_bit(w);
    let negative = n >= pair_half;
    let opposite = negative != (by as u128 >= half);
    let whole = magnitude(pair_half, n) / magnitude(half, by as u128);
    let rest = magnitude(pair_half, n) % magnitude(half, by as u128);
    if fits(half, opposite, whole) {
        Some((
            with_sign(half, opposite, whole) as u64,
            with_sign(half, negative, rest) as u64,
        ))
    } else {
        None
    }
}

// The worth of the sign bit of a number of two widths.
fn pair_sign_bit(w: Width) -> u128
    ensures value { result ≡ pair_half w }
    ensures low { result ≤ 2 ^ 127 }
{
    1 << (2 * w.bits() - 1)
}

// The magnitude of a number whose sign bit is worth `half`.
fn magnitude(half: u128, n: u128) -> u128
    requires n { n < 2 * half }
    ensures value { result ≡ magnitude half n }
    ensures low { result ≤ half }
{
    if n < half { n } else { half - (n - half) }
}

// Whether a magnitude with a sign fits a number whose sign bit is worth `half`.
fn fits(half: u128, negative: bool, magnitude: u128) -> bool
    ensures { result ≡ fits_signed half negative magnitude }
{
    if negative {
        magnitude <= half
    } else {
        magnitude < half
    }
}

// The number of a sign and a magnitude, whose sign bit is worth `half`.
#[tactic(auto, using(crate::proofs::SignLaws::minus_zero))]
fn with_sign(half: u128, negative: bool, magnitude: u128) -> u128
    requires low { half ≤ 2 ^ 127 }
    requires positive { 0 < half }
    requires magnitude { magnitude ≤ half }
    ensures value { result ≡ signed_number half negative magnitude }
    ensures low { result < 2 * half }
{
    if negative && magnitude != 0 {
        half + (half - magnitude)
    } else {
        magnitude
    }
}

// Sums and differences at a width, with a carry or a borrow.

ghost use Rattle.std.specs.Prelude.{◌≡◌};
ghost use Rattle.rz_num.specs.Width.{low_bits};
ghost use Rattle.rz_num.specs.Carry.{sum_at, sum_carries, difference_at, difference_borrows};

use crate::width::{Width, mask};

/// The sum of two numbers, which are cut to the width, and a carry: its low bits, and whether there is a carry out
/// (Intel SDM, volume 2, "ADC"). It takes no memory.
#[inline(always)]
pub fn add_carry(w: Width, a: u64, b: u64, c: bool) -> (u64, bool)
    ensures value { result.0 ≡ sum_at w (low_bits w a) (low_bits w b) c }
    ensures carry { result.1 ≡ sum_carries w (low_bits w a) (low_bits w b) c }
{
    let a = mask(w, a);
    let part = a.wrapping_add(mask(w, b));
    let sum = part.wrapping_add(c as u64);
    (mask(w, sum), part < a || sum < part || sum > w.greatest())
}

/// The difference of two numbers, which are cut to the width, less a borrow: its low bits, and whether there is a borrow
/// out (Intel SDM, volume 2, "SBB"). It takes no memory.
#[inline(always)]
pub fn sub_borrow(w: Width, a: u64, b: u64, c: bool) -> (u64, bool)
    ensures value { result.0 ≡ difference_at w (low_bits w a) (low_bits w b) c }
    ensures borrow { result.1 ≡ difference_borrows (low_bits w a) (low_bits w b) c }
{
    let a = mask(w, a);
    let b = mask(w, b);
    let part = a.wrapping_sub(b);
    let less = c as u64;
    (mask(w, part.wrapping_sub(less)), a < b || part < less)
}

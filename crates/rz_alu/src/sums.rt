//! Sums and differences at a width with their flags.

ghost use Rattle.std.specs.Prelude.{◌≡◌, ◌<◌};
ghost use Rattle.rz_num.specs.Width.{size};
ghost use Rattle.rz_num.specs.Carry.{sum_at, difference_at};
ghost use Rattle.rz_alu.specs.Sums.{sum_overflows, sum_carries_low, difference_overflows, difference_borrows_low};
ghost use Rattle.rz_alu.specs.Arith.{addition, subtraction};

use crate::status::{flags_of, top_bit};
use rz_flags::Flags;
use rz_num::{Width, add_carry, sub_borrow};

// The sum of two numbers and a carry, and the flags after it.
#[tactic(auto, using(crate::proofs::WidthLaws::cut_same))]
#[inline(always)]
pub(crate) fn add(w: Width, a: u64, b: u64, carry: bool, flags: Flags) -> (u64, Flags)
    requires a { a < size w }
    requires b { b < size w }
    ensures value { result.0 ≡ (addition w a b carry flags).value }
    ensures flags { result.1 ≡ (addition w a b carry flags).flags }
{
    let (value, cf) = add_carry(w, a, b, carry);
    let of = sum_overflow(w, a, b, carry, value);
    let af = low_carry(a, b, carry);
    (value, flags_of(w, value, cf, of, af, flags))
}

// The difference of two numbers, less a borrow, and the flags after it.
#[tactic(auto, using(crate::proofs::WidthLaws::cut_same))]
#[inline(always)]
pub(crate) fn subtract(w: Width, a: u64, b: u64, borrow: bool, flags: Flags) -> (u64, Flags)
    requires a { a < size w }
    requires b { b < size w }
    ensures value { result.0 ≡ (subtraction w a b borrow flags).value }
    ensures flags { result.1 ≡ (subtraction w a b borrow flags).flags }
{
    let (value, cf) = sub_borrow(w, a, b, borrow);
    let of = difference_overflow(w, a, b, borrow, value);
    let af = low_borrow(a, b, borrow);
    (value, flags_of(w, value, cf, of, af, flags))
}

// Whether the sum of the signed numbers doesn't fit: both have one sign, and the sum the other.
#[inline(always)]
fn sum_overflow(w: Width, a: u64, b: u64, carry: bool, sum: u64) -> bool
    requires a { a < size w }
    requires b { b < size w }
    requires sum { sum ≡ sum_at w a b carry }
    ensures { result ≡ sum_overflows w a b carry }
{
    top_bit(w, a) == top_bit(w, b) && top_bit(w, sum) != top_bit(w, a)
}

// Whether the difference of the signed numbers doesn't fit: they have two signs, and the difference that of the second.
#[inline(always)]
fn difference_overflow(w: Width, a: u64, b: u64, borrow: bool, difference: u64) -> bool
    requires a { a < size w }
    requires b { b < size w }
    requires difference { difference ≡ difference_at w a b borrow }
    ensures { result ≡ difference_overflows w a b borrow }
{
    top_bit(w, a) != top_bit(w, b) && top_bit(w, difference) == top_bit(w, b)
}

// The carry out of bit 3.
#[inline(always)]
fn low_carry(a: u64, b: u64, carry: bool) -> bool
    ensures { result ≡ sum_carries_low a b carry }
{
    a % 16 + b % 16 + carry as u64 >= 16
}

// The borrow into bit 3.
#[inline(always)]
fn low_borrow(a: u64, b: u64, borrow: bool) -> bool
    ensures { result ≡ difference_borrows_low a b borrow }
{
    a % 16 < b % 16 + borrow as u64
}

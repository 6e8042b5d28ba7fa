//! Rotates and shifts.

ghost use Rattle.std.specs.Prelude.{◌≡◌, ◌<◌, ◌≤◌, ◌+◌, ◌^◌};
ghost use Rattle.rz_num.specs.Width.{size, bits};
ghost use Rattle.rz_alu.specs.Shifts.{used_count, rotation, shift, left_rotation, right_rotation, left_shift, right_shift, sign_above, signed_shift, with_carry as with_carry_of, left_carry_rotation, right_carry_rotation};

use crate::status::{flags_of, top_bit, with_carry_overflow};
use rz_flags::{Flags, ShiftOp};
use rz_num::{Width, mask};

/// The value of a rotate or shift of an operand, which is cut to the width, by a count, which is masked, and the flags
/// after it. A masked count of 0 leaves value and flags
/// (Intel SDM, volume 2, "RCL/RCR/ROL/ROR", "SAL/SAR/SHL/SHR"). It takes no memory.
#[inline(always)]
pub fn shift(op: ShiftOp, w: Width, a: u64, count: u8, flags: Flags) -> (u64, Flags)
    ensures value { result.0 ≡ (shift op w a count flags).value }
    ensures flags { result.1 ≡ (shift op w a count flags).flags }
{
    let a = mask(w, a);
    let n = used_count(w, count);
    if n == 0 {
        return (a, flags);
    }
    match op {
        ShiftOp::Rol => rotate_left(w, a, n, flags),
        ShiftOp::Ror => rotate_right(w, a, n, flags),
        ShiftOp::Shl => shift_left(w, a, n, flags),
        ShiftOp::Shr => shift_right(w, a, n, flags),
        ShiftOp::Sar => shift_signed(w, a, n, flags),
        ShiftOp::Rcl => rotate_left_with_carry(w, a, n, flags),
        ShiftOp::Rcr => rotate_right_with_carry(w, a, n, flags),
    }
}

// The bits of a count that are used.
#[inline(always)]
pub(crate) fn used_count(w: Width, count: u8) -> u32
    ensures { result ≡ used_count w count }
{
    match w {
        Width::W8 | Width::W16 | Width::W32 => count as u32 % 32,
        Width::W64 => count as u32 % 64,
    }
}

// The number of so many bits whose lowest ones are put above the others.
#[tactic(auto, using(crate::proofs::BitLaws::rotation_low, crate::proofs::BitLaws::rotation_shift, crate::proofs::BitLaws::rotation_fits))]
fn rotation(lowest: u32, others: u32, a: u128) -> u128
    requires few { lowest + others ≤ 65 }
    requires a { a < 2 ^ (lowest + others) }
    ensures value { result ≡ rotation lowest others a }
    ensures low { result < 2 ^ (lowest + others) }
{
    ((a % (1 << lowest)) << others) + (a >> lowest)
}

fn rotate_left(w: Width, a: u64, n: u32, flags: Flags) -> (u64, Flags)
    requires { a < size w }
    ensures value { result.0 ≡ (left_rotation w a n flags).value }
    ensures flags { result.1 ≡ (left_rotation w a n flags).flags }
{
    let k = n % w.bits();
    let value = rotation(w.bits() - k, k, a as u128) as u64;
    let cf = value % 2 == 1;
    (
        value,
        with_carry_overflow(cf, top_bit(w, value) != cf, flags),
    )
}

fn rotate_right(w: Width, a: u64, n: u32, flags: Flags) -> (u64, Flags)
    requires { a < size w }
    ensures value { result.0 ≡ (right_rotation w a n flags).value }
    ensures flags { result.1 ≡ (right_rotation w a n flags).flags }
{
    let k = n % w.bits();
    let value = rotation(k, w.bits() - k, a as u128) as u64;
    let cf = top_bit(w, value);
    let second = (value >> (w.bits() - 2)) % 2 == 1;
    (value, with_carry_overflow(cf, cf != second, flags))
}

// A number with CF above its top bit.
fn with_carry(w: Width, a: u64, carry: bool) -> u128
    requires { a < size w }
    ensures value { result ≡ with_carry_of w a carry }
    ensures low { result < 2 ^ (bits w + 1) }
{
    ((carry as u128) << w.bits()) + a as u128
}

fn rotate_left_with_carry(w: Width, a: u64, n: u32, flags: Flags) -> (u64, Flags)
    requires { a < size w }
    ensures value { result.0 ≡ (left_carry_rotation w a n flags).value }
    ensures flags { result.1 ≡ (left_carry_rotation w a n flags).flags }
{
    let k = n % (w.bits() + 1);
    if k == 0 {
        return (a, flags);
    }
    let rotated = rotation(w.bits() + 1 - k, k, with_carry(w, a, flags.cf));
    let value = mask(w, (rotated % (1 << 64)) as u64);
    let cf = (rotated >> w.bits()) % 2 == 1;
    let top = (rotated >> (w.bits() - 1)) % 2 == 1;
    (value, with_carry_overflow(cf, top != cf, flags))
}

fn rotate_right_with_carry(w: Width, a: u64, n: u32, flags: Flags) -> (u64, Flags)
    requires { a < size w }
    ensures value { result.0 ≡ (right_carry_rotation w a n flags).value }
    ensures flags { result.1 ≡ (right_carry_rotation w a n flags).flags }
{
    let k = n % (w.bits() + 1);
    if k == 0 {
        return (a, flags);
    }
    let rotated = rotation(k, w.bits() + 1 - k, with_carry(w, a, flags.cf));
    let value = mask(w, (rotated % (1 << 64)) as u64);
    let cf = (rotated >> w.bits()) % 2 == 1;
    let top = (rotated >> (w.bits() - 1)) % 2 == 1;
    let second = (rotated >> (w.bits() - 2)) % 2 == 1;
    (value, with_carry_overflow(cf, top != second, flags))
}

#[inline(always)]
fn shift_left(w: Width, a: u64, n: u32, flags: Flags) -> (u64, Flags)
    requires a { a < size w }
    requires n { n < 64 }
    ensures value { result.0 ≡ (left_shift w a n flags).value }
    ensures flags { result.1 ≡ (left_shift w a n flags).flags }
{
    let wide = (a as u128) << n;
    let value = mask(w, (wide % (1 << 64)) as u64);
    let cf = (wide >> w.bits()) % 2 == 1;
    (
        value,
        flags_of(w, value, cf, top_bit(w, value) != cf, false, flags),
    )
}

#[inline(always)]
fn shift_right(w: Width, a: u64, n: u32, flags: Flags) -> (u64, Flags)
    requires a { a < size w }
    requires some { 0 < n }
    requires n { n < 64 }
    ensures value { result.0 ≡ (right_shift w a n flags).value }
    ensures flags { result.1 ≡ (right_shift w a n flags).flags }
{
    let value = a >> n;
    let cf = (a >> (n - 1)) % 2 == 1;
    (value, flags_of(w, value, cf, top_bit(w, a), false, flags))
}

#[inline(always)]
fn shift_signed(w: Width, a: u64, n: u32, flags: Flags) -> (u64, Flags)
    requires a { a < size w }
    requires some { 0 < n }
    requires n { n < 64 }
    ensures value { result.0 ≡ (signed_shift w a n flags).value }
    ensures flags { result.1 ≡ (signed_shift w a n flags).flags }
{
    let wide = sign_above(w, n, a);
    let value = (wide >> n) as u64;
    let cf = (wide >> (n - 1)) % 2 == 1;
    (value, flags_of(w, value, cf, false, false, flags))
}

// A number with so many copies of its top bit above it.
#[inline(always)]
fn sign_above(w: Width, n: u32, a: u64) -> u128
    requires a { a < size w }
    requires n { n < 64 }
    ensures { result ≡ sign_above w n a }
{
    if top_bit(w, a) {
        (((1 << n) - 1) << w.bits()) + a as u128
    } else {
        a as u128
    }
}

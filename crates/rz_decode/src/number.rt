ghost use Rattle.std.specs.Prelude.{◌≡◌, ◌<◌, ◌≤◌, ◌^◌, length};
ghost use Rattle.rz_isa.specs.Number.{number as number_of, numbers as numbers_of, extended as extended_of, signed as signed_of};

// Numbers in the bytes of an instruction (Intel SDM, volume 2, sections 2.1.4 and 2.2.1.3 to 2.2.1.6).

/// The number of little-endian bytes.
#[tactic(auto, using(crate::proofs::Bounds::tail_bound))]
pub fn number(bytes: &[u8]) -> u64
    requires { length bytes.now ≤ 8 }
    ensures value { result ≡ number_of bytes.now }
    ensures below { result < numbers_of bytes.now }
{
    match bytes {
        [] => 0,
        [b, rest @ ..] => u64::from(*b) + 256 * number(rest),
    }
}

// How many numbers so many bytes have.
#[tactic(auto, using(crate::proofs::Bounds::tail_bound, crate::proofs::Bounds::tail_bound4))]
fn numbers(bytes: &[u8]) -> u128
    requires { length bytes.now ≤ 8 }
    ensures value { result ≡ numbers_of bytes.now }
    ensures bound { result ≤ 2 ^ 64 }
    ensures bound4 { length bytes.now ≤ 4 → result ≤ 2 ^ 32 }
{
    match bytes {
        [] => 1,
        [_, rest @ ..] => 256 * numbers(rest),
    }
}

/// The number, sign-extended to 64 bits.
pub fn extended(bytes: &[u8]) -> u64
    requires { length bytes.now ≤ 8 }
    ensures { result ≡ extended_of bytes.now }
{
    let n = u128::from(number(bytes));
    let top = numbers(bytes);
    if 2 * n < top {
        n as u64
    } else {
        (n + (0x1_0000_0000_0000_0000 - top)) as u64
    }
}

/// The number, read as a signed one.
pub fn signed(bytes: &[u8]) -> i32
    requires { length bytes.now ≤ 4 }
    ensures { result ≡ signed_of bytes.now }
{
    let top = numbers(bytes) as i64;
    let n = number(bytes) as u32 as i64;
    if 2 * n < top {
        n as i32
    } else {
        (n - top) as i32
    }
}

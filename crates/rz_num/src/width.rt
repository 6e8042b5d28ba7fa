// Operand widths.

ghost use Rattle.std.specs.Prelude.{◌≡◌, ◌<◌, ◌+◌, ◌*◌, ◌^◌};
ghost use Rattle.rz_num.specs.Width.{extend, low_bits, sign_extended};

/// The width of an operand, in bits (Intel SDM volume 1, 4.1).
#[derive(Clone, Copy, Debug, PartialEq, Eq)]
pub enum Width {
    W8,
    W16,
    W32,
    W64,
}

impl Width {
    ghost use Rattle.rz_num.specs.Width.{bits, size, half};

    /// The number of bits.
    #[inline(always)]
    pub fn bits(self) -> u32
        ensures { result ≡ bits self }
    {
        8 << (self as u32)
    }

    /// The greatest number of the width: all its bits are ones.
    #[inline(always)]
    pub fn greatest(self) -> u64
        ensures { result + 1 ≡ size self }
    {
        u64::MAX >> (64 - self.bits())
    }

    /// The worth of the sign bit, which is the top bit.
    #[inline(always)]
    pub fn sign_bit(self) -> u64
        ensures { result ≡ half self }
    {
        1 << (self.bits() - 1)
    }
}

/// The low bits of a number, as many as the width has; the bits above are 0.
#[inline(always)]
pub fn mask(width: Width, x: u64) -> u64
    ensures { result ≡ low_bits width x }
{
    x & width.greatest()
}

/// The low bits of a number, read in two's complement, as a word of 64 bits.
#[inline(always)]
pub fn sign_extend(width: Width, x: u64) -> u64
    ensures { result ≡ sign_extended width x }
{
    let low = mask(width, x);
    match width {
        Width::W8 => extend(low, 0x80),
        Width::W16 => extend(low, 0x8000),
        Width::W32 => extend(low, 0x8000_0000),
        Width::W64 => low,
    }
}

// The number with all bits above `half`, its sign bit, equal to that bit.
#[inline(always)]
fn extend(low: u64, half: u64) -> u64
    requires positive { 0 < half }
    requires narrow { half < 2 ^ 63 }
    requires within { low < 2 * half }
    ensures { result ≡ extend half low }
{
    if low < half {
        low
    } else {
        low + (u64::MAX - (2 * half - 1))
    }
}

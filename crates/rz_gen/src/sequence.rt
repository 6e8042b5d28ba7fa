// The sequence of numbers that generated functions add.

ghost use Rattle.std.specs.Prelude.{◌≡◌, ◌^◌, ◌<◌};
ghost use Rattle.rz_gen.specs.Sequence.{next_number};

/// The number of place 0.
pub const FIRST_NUMBER: u32 = 12345;

/// The number behind a number.
pub fn next_number(x: u32) -> u32
    requires { x < 2 ^ 31 }
    ensures value { result ≡ next_number x }
    ensures low { result < 2 ^ 31 }
{
    ((1_103_515_245 * x as u64 + 12345) % (1 << 31)) as u32
}

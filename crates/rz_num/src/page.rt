// Pages of memory.

ghost use Rattle.std.specs.Prelude.{◌≡◌, ◌<◌, ◌^◌};
ghost use Rattle.rz_num.specs.Page.{page_up};

/// The bytes of a page: the System V ABI for x86-64 has pages of 4096 bytes.
const PAGE: u64 = 4096;

/// The least multiple of 4096 that is not below an address.
pub fn page_up(x: u64) -> u64
    requires { x < 2 ^ 63 }
    ensures { result ≡ page_up x }
{
    x.div_ceil(PAGE) * PAGE
}

ghost use Rattle.std.specs.Prelude.{◌≤◌, ◌<◌, ◌+◌, ◌∷◌, [], length};
ghost use Rattle.rz_isa.specs.Spelling.{rex_bytes};
ghost use Rattle.rz_isa.specs.Canonical.{little};
ghost use Rattle.rz_encode.specs.Calls.Writer.{Wrote};

// Bytes into the buffer from a place on. Each call answers where they end.

pub fn put(byte: u8, n: usize, out: &mut [u8]) -> usize
    requires { n < length out.old }
    ensures { Wrote out.old n out.new result (byte ∷ []) }
{
    out[n] = byte;
    n + 1
}

pub fn put_two(first: u8, second: u8, n: usize, out: &mut [u8]) -> usize
    requires { n + 2 ≤ length out.old }
    ensures { Wrote out.old n out.new result (first ∷ (second ∷ [])) }
{
    let m = put(first, n, out);
    put(second, m, out)
}

pub fn put_some(byte: Option<u8>, n: usize, out: &mut [u8]) -> usize
    requires { n + 1 ≤ length out.old }
    ensures wrote { Wrote out.old n out.new result (rex_bytes byte) }
    ensures few { result ≤ n + 1 }
{
    match byte {
        None => n,
        Some(b) => put(b, n, out),
    }
}

/// So many low bytes of the number, the least first.
pub fn put_little(count: usize, v: u64, n: usize, out: &mut [u8]) -> usize
    requires { n + count ≤ length out.old }
    ensures { Wrote out.old n out.new result (little count v) }
{
    if count == 0 {
        return n;
    }
    let m = put((v % 256) as u8, n, out);
    put_little(count - 1, v / 256, m, out)
}

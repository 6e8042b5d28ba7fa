//! Searches for a bit and counts of bits.

ghost use Rattle.std.specs.Prelude.{◌≡◌, ◌<◌};
ghost use Rattle.rz_num.specs.Width.{size};
ghost use Rattle.rz_alu.specs.Scans.{scan, zeros_below, zeros_above, zeros_answer, ones_flags};

use rz_flags::{Flags, ScanOp};
use rz_num::{Width, mask};

/// The value of a search or count in a source, which is cut to the width, and the flags after it. Where BSF and BSR find
/// nothing the value is `old` whole (Intel SDM, volume 2, "BSF", "BSR", "TZCNT", "LZCNT", "POPCNT"). It takes no memory.
pub fn scan(op: ScanOp, w: Width, old: u64, source: u64, flags: Flags) -> (u64, Flags)
    ensures value { result.0 ≡ (scan op w old source flags).value }
    ensures flags { result.1 ≡ (scan op w old source flags).flags }
{
    let source = mask(w, source);
    match op {
        ScanOp::Bsf | ScanOp::Bsr if source == 0 => (old, Flags { zf: true, ..flags }),
        ScanOp::Bsf => (zeros_below(w, source), Flags { zf: false, ..flags }),
        ScanOp::Bsr => (
            w.bits() as u64 - 1 - zeros_above(w, source),
            Flags { zf: false, ..flags },
        ),
        ScanOp::Tzcnt => zeros(source, zeros_below(w, source), flags),
        ScanOp::Lzcnt => zeros(source, zeros_above(w, source), flags),
        ScanOp::Popcnt => (source.count_ones() as u64, ones_flags(source, flags)),
    }
}

// How many zeros are below the lowest one.
fn zeros_below(w: Width, source: u64) -> u64
    ensures { result ≡ zeros_below w source }
{
    if source == 0 {
        w.bits() as u64
    } else {
        source.trailing_zeros() as u64
    }
}

// How many zeros are above the highest one.
#[tactic(auto, using(crate::proofs::BitLaws::zeros_at))]
fn zeros_above(w: Width, source: u64) -> u64
    requires { source < size w }
    ensures { result ≡ zeros_above w source }
{
    (source.leading_zeros() - (64 - w.bits())) as u64
}

// A count of zeros in a source, and the flags after it.
fn zeros(source: u64, count: u64, flags: Flags) -> (u64, Flags)
    ensures value { result.0 ≡ (zeros_answer source count flags).value }
    ensures flags { result.1 ≡ (zeros_answer source count flags).flags }
{
    (
        count,
        Flags {
            cf: source == 0,
            zf: count == 0,
            ..flags
        },
    )
}

// The flags after a count of ones.
fn ones_flags(source: u64, flags: Flags) -> Flags
    ensures { result ≡ ones_flags source flags }
{
    Flags {
        cf: false,
        pf: false,
        af: false,
        zf: source == 0,
        sf: false,
        df: flags.df,
        of: false,
    }
}

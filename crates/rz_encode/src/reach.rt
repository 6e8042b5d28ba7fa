ghost use Rattle.std.specs.Prelude.{◌≡◌, ◌^◌};
ghost use Rattle.rz_isa.specs.Having.{is_extended};
ghost use Rattle.rz_isa.specs.Canonical.{offset as offset_of, place_reaches as place_reaches_of, imm_reaches as imm_reaches_of, reaches as reaches_of};

use rz_isa::{Fields, ImmKind, Place, Row};

/// The way from the next instruction's address, modulo 2^64.
pub fn offset(next: u64, target: u64) -> u64
    ensures { result ≡ offset_of next target }
{
    target.wrapping_sub(next)
}

// In reach of a displacement of four bytes, read as a signed number.
fn is_near(n: u64) -> bool
    ensures { result ≡ is_extended (2 ^ 31) (2 ^ 64) n }
{
    n < 0x8000_0000 || 0xffff_ffff_8000_0000 <= n
}

// In reach of a displacement of one byte.
fn is_close(n: u64) -> bool
    ensures { result ≡ is_extended (2 ^ 7) (2 ^ 64) n }
{
    n < 0x80 || 0xffff_ffff_ffff_ff80 <= n
}

fn place_reaches(next: u64, place: Place) -> bool
    ensures { result ≡ place_reaches_of next place }
{
    match place {
        Place::At(address) => is_near(offset(next, address)),
        _ => true,
    }
}

fn imm_reaches(imm: Option<ImmKind>, next: u64, n: u64) -> bool
    ensures { result ≡ imm_reaches_of imm next n }
{
    match imm {
        Some(ImmKind::J8) => is_close(offset(next, n)),
        Some(ImmKind::J32) => is_near(offset(next, n)),
        _ => true,
    }
}

/// What is named by its address is in reach of its displacement.
pub fn reaches(row: &Row, f: &Fields, next: u64) -> bool
    ensures { result ≡ reaches_of row.now f.now next }
{
    place_reaches(next, f.rm) && imm_reaches(row.imm, next, f.imm)
}

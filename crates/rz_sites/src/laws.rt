//! Laws of sites, for any table.

ghost use Rattle.rz_isa.specs.Decoded.{decoded};
ghost use Rattle.rz_sites.specs.Site.{SitesSimulate, SitesAreSized};

use rz_encode::laws::canonical_lengths;
use rz_isa::InsnTable;
use rz_isa::laws::{emits, spelled_within, targets};

/// The items of a site do what the instruction does that they stand for, in one to 64 steps and 16 more for each binary
/// digit of the number of targets, where the lookup routine and the table of the site stand: where it leads to one of the targets they go to that target's fragment, else to the stub of the site.
/// No register, flag or byte outside the added range is another then, and a fault of the operand's read, of the
/// return's or of the push finds the original's registers.
pub fn sites_simulate<T: InsnTable>()
    ensures { SitesSimulate (decoded T.rows) }
{}

/// The items of a site can be laid out and take at most 128 bytes and 48 more for each target, where what the
/// instruction names relative to RIP is below 2^31.
pub fn sites_are_sized<T: InsnTable>()
    ensures { SitesAreSized T.rows }
{
    emits::<T>();
    spelled_within::<T>();
    targets::<T>();
    canonical_lengths::<T>();
}

//! Laws of fragments, for any table.

ghost use Rattle.rz_isa.specs.Decoded.{decoded};
ghost use Rattle.rz_frag.specs.Fragment.{FragmentsSimulate, FragmentsAreSized};

use rz_encode::laws::canonical_lengths;
use rz_isa::InsnTable;
use rz_isa::laws::{emits, spelled_elsewhere, spelled_within};

/// The items of a fragment do what the instruction does that they stand for, in one to 64 steps, whatever is kept of its
/// successors, where the next address is below 2^31.
pub fn fragments_simulate<T: InsnTable>()
    ensures { FragmentsSimulate (decoded T.rows) 64 }
{}

/// The items of a fragment can be laid out and take at most 32 bytes, where what the instruction names relative to RIP
/// and the next address are below 2^31.
pub fn fragments_are_sized<T: InsnTable>()
    ensures { FragmentsAreSized T.rows 32 }
{
    emits::<T>();
    spelled_elsewhere::<T>();
    spelled_within::<T>();
    canonical_lengths::<T>();
}

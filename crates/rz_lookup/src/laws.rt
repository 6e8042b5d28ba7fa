//! Laws of the lookup routine, for any table.

ghost use Rattle.rz_isa.specs.Decoded.{decoded};
ghost use Rattle.rz_lookup.specs.Routine.{RoutineLooksUp, RoutineIsSized};

use rz_encode::laws::canonical_lengths;
use rz_isa::InsnTable;
use rz_isa::laws::{emits, spelled_within};

/// The lookup routine goes where a table leads the value in RCX, in one to 22 steps, and 7 more for each time that the
/// number of its pairs can be halved, rounded up, before it is 1. RCX is the original's then, and the other registers, the
/// flags and memory are as they were, but for the scratch page from its fourth word on.
pub fn routine_looks_up<T: InsnTable>()
    ensures { RoutineLooksUp (decoded T.rows) }
{}

/// The items of the lookup routine can be laid out and take at most 512 bytes.
pub fn routine_is_sized<T: InsnTable>()
    ensures { RoutineIsSized T.rows }
{
    emits::<T>();
    spelled_within::<T>();
    canonical_lengths::<T>();
}

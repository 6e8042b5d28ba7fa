//! Laws of runs over the definitions alone.

ghost use Rattle.rz_isa.specs.Decoded.{decoded};
ghost use Rattle.rz_machine.specs.Placement.{PlacementsKeep};

use rz_isa::InsnTable;

/// Whatever the placement of what is kept, in any spelling of the table, each run of the original is kept, with one
/// to so many steps for each of its steps as the placed items take. Both images leave room for a heap, above what is added.
pub fn placements_keep<T: InsnTable>()
    ensures { PlacementsKeep (decoded T.rows) }
{}

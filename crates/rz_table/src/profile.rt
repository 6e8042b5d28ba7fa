ghost use Rattle.std.specs.Prelude.{◌≡◌, ◌<◌, length, slice_get, Some, refl};
ghost use Rattle.rz_isa.specs.Table.{OneRow, Lengths, OneCanonicalRow, CanonicalSpells};
ghost use Rattle.rz_table.specs.declared.profile_rows.TheConstants.{PROFILE};
ghost use Rattle.rz_table.specs.Listing.{profile_rows};
ghost use Rattle.rz_table.specs.Laws.ProfileEmits.{emits, emits_lookup};

use crate::index::{cell, class_place, opcode_place};
use crate::profile_index::{
    PROFILE_CLASS_ROWS, PROFILE_CLASS_STARTS, PROFILE_OPCODE_ROWS, PROFILE_OPCODE_STARTS,
};
use crate::profile_rows::PROFILE;
use rz_isa::{Class, InsnTable, OpMap, Row};

/// The table of profile 1. It has 203 rows.
#[derive(Clone, Copy)]
pub struct Profile1;

/// The row of a number below the length.
pub fn pick(rows: &[Row], n: usize) -> Row
    requires { n < length rows.now }
    ensures { slice_get rows.now n ≡ Some result }
{
    rows[n]
}

impl InsnTable for Profile1 {
    ghost rows = { PROFILE };

    /// How many rows there are. The rows are those of the lines in `Listing`. The other clauses are
    /// the laws of the table: no bytes are spelled by
    /// two rows, every spelling has 1 to 15 bytes, an instruction has one canonical row for each
    /// form that it has, and a canonical spelling names its instruction.
    fn count() -> usize
        ensures length { result ≡ length PROFILE }
        ensures listed { PROFILE ≡ profile_rows }
        ensures one_row { OneRow PROFILE }
        ensures lengths { Lengths PROFILE }
        ensures one_canonical_row { OneCanonicalRow PROFILE }
        ensures canonical_spells { CanonicalSpells PROFILE }
    {
        PROFILE.len()
    }

    fn row(n: usize) -> Row {
        pick(&PROFILE, n)
    }

    fn rows_at(map: OpMap, opcode: u8) -> &'static [u8] {
        cell(
            &PROFILE_OPCODE_STARTS,
            &PROFILE_OPCODE_ROWS,
            opcode_place(map, opcode),
        )
    }

    fn rows_of(class: Class) -> &'static [u8] {
        cell(
            &PROFILE_CLASS_STARTS,
            &PROFILE_CLASS_ROWS,
            class_place(class),
        )
    }

    ghost plain = { refl };

    ghost exclude = { refl };

    ghost regular = { refl };

    ghost suited = { refl };

    ghost emits = { emits };

    ghost emits_lookup = { emits_lookup };
}

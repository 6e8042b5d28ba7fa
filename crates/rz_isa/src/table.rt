ghost use Rattle.std.specs.Prelude.{◌≡◌, ◌<◌, List, length, slice_get, Some, IsTrue};
ghost use Rattle.std.specs.List.{list_all};
ghost use Rattle.rz_isa.specs.declared.rows.Row.{Row};
ghost use Rattle.rz_isa.specs.Table.{is_plain, all_exclude};
ghost use Rattle.rz_isa.specs.Regular.{is_regular};
ghost use Rattle.rz_isa.specs.Suited.{is_suited};
ghost use Rattle.rz_isa.specs.Emitted.{Emits, EmitsLookup, has_lookup};
ghost use Rattle.rz_isa.specs.Index.{ListsOpcode, numbers_of};

use crate::classes::Class;
use crate::rows::{OpMap, Row};

/// An instruction table: its rows by their numbers.
pub trait InsnTable {
    /// The rows, in their order.
    ghost rows: { List Row };

    /// How many rows there are.
    fn count() -> usize
        ensures { result ≡ length rows };

    /// The row of a number below `count`.
    fn row(n: usize) -> Row
        requires { n < length rows }
        ensures value { slice_get rows n ≡ Some result }
        ensures regular { IsTrue (is_regular result) };

    /// The numbers of the rows that have the opcode, in any order, and perhaps others.
    fn rows_at(map: OpMap, opcode: u8) -> &'static [u8]
        ensures { ListsOpcode rows map opcode result.now };

    /// The numbers of the rows of the class, ascending.
    fn rows_of(class: Class) -> &'static [u8]
        ensures { result.now ≡ numbers_of class 0 rows };

    /// No opcode of one byte is a prefix, REX or the escape, and each digit has its ModRM byte.
    ghost plain: { IsTrue (list_all is_plain rows) };

    /// The heads of any two rows exclude each other.
    ghost exclude: { IsTrue (all_exclude rows) };

    /// The fields of each row can be told from the instruction and the other way round.
    ghost regular: { IsTrue (list_all is_regular rows) };

    /// The letters of each row's operation suit the row.
    ghost suited: { IsTrue (list_all is_suited rows) };

    /// Moves, jumps, pushes and what ends a path have canonical spellings, with these lengths.
    ghost emits: { Emits rows };

    /// Where a transfer of the table is looked up, so has what the lookup routine is made of.
    ghost emits_lookup: { IsTrue (has_lookup rows) → EmitsLookup rows };
}

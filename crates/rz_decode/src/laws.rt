ghost use Rattle.rz_isa.specs.DecodedLaws.{DecodesExactly, FifteenCount};

use rz_isa::InsnTable;

/// What stands at the front of bytes is what the table's spellings say, both ways, and only the
/// first 15 bytes count.
pub fn decoded_laws<T: InsnTable>()
    ensures exact { DecodesExactly T.rows }
    ensures fifteen { FifteenCount T.rows }
{}

ghost use Rattle.rz_encode.specs.Laws.{DecodesBack};
ghost use Rattle.rz_encode.specs.Length.{ChosenLengths, SameLengths, CanonicalLengths};

use rz_isa::InsnTable;

/// A canonical spelling is decoded as its instruction, with its length, whatever bytes follow.
pub fn decodes_back<T: InsnTable>()
    ensures { DecodesBack T.rows }
{}

/// What is chosen for an instruction and a form has at most 15 bytes, whether what it names by
/// address is in reach or not; a canonical spelling has as many bytes, at every address.
pub fn canonical_lengths<T: InsnTable>()
    ensures chosen { ChosenLengths T.rows }
    ensures same { SameLengths T.rows }
    ensures short { CanonicalLengths T.rows }
{}

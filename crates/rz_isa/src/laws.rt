ghost use Rattle.std.specs.Prelude.{IsTrue};
ghost use Rattle.rz_isa.specs.Emitted.{Emits, EmitsLookup, has_lookup};
ghost use Rattle.rz_isa.specs.Table.{OneRow, Lengths, OneCanonicalRow, HasChosen, CanonicalSpells, CanonicalPrefixes, CanonicalShortest};
ghost use Rattle.rz_isa.specs.Targets.{RipTargets, DirectTargets, IndirectOperands, SpelledElsewhere};
ghost use Rattle.rz_isa.specs.Within.{SpelledWithin};

use crate::table::InsnTable;

/// No bytes are spelled by two rows, no spelling is a proper front of another, and the bytes of
/// a spelling fix its parts.
pub fn one_row<T: InsnTable>()
    ensures { OneRow T.rows }
{}

/// Every spelling has 1 to 15 bytes.
pub fn lengths<T: InsnTable>()
    ensures { Lengths T.rows }
{}

/// Each instruction that some row spells has exactly one canonical row for each form that it has.
pub fn one_canonical_row<T: InsnTable>()
    ensures { OneCanonicalRow T.rows }
{}

/// An instruction that some row of a form spells somewhere has a chosen row of that form.
pub fn has_chosen<T: InsnTable>()
    ensures { HasChosen T.rows }
{}

/// A canonical spelling is a spelling by the canonical row, and names the instruction.
pub fn canonical_spells<T: InsnTable>()
    ensures { CanonicalSpells T.rows }
{}

/// A canonical spelling has no prefix F0, and F2 exactly where a comparison of strings repeats while what it compares is
/// not equal (Intel SDM, volume 2, section 2.1.1).
pub fn canonical_prefixes<T: InsnTable>()
    ensures { CanonicalPrefixes T.rows }
{}

/// No spelling of the instruction at that address by its canonical row is shorter than the canonical one (Intel SDM,
/// volume 2, section 2.1).
pub fn canonical_shortest<T: InsnTable>()
    ensures { CanonicalShortest T.rows }
{}

/// What an instruction names relative to RIP is its ModRM operand's address, exactly where its
/// operation uses that operand; its direct target is the immediate, exactly where its row has a
/// displacement from the next address; an indirect call or jump reads an operand of 64 bits.
pub fn targets<T: InsnTable>()
    ensures rip { RipTargets }
    ensures direct { DirectTargets T.rows }
    ensures indirect { IndirectOperands T.rows }
{}

/// An instruction without a direct target that some row spells at some address has a canonical
/// spelling of the near form at each address at least 32 bytes below 2^31, where what it names
/// relative to RIP is below 2^31.
pub fn spelled_elsewhere<T: InsnTable>()
    ensures { SpelledElsewhere T.rows }
{}

/// An instruction without a direct target for which a row is chosen has a canonical spelling of
/// the near form at each address from which that ends below 2^31, where what it names relative
/// to RIP is below 2^31.
pub fn spelled_within<T: InsnTable>()
    ensures { SpelledWithin T.rows }
{}

/// The instructions that fragments and stubs are made of have canonical spellings; a table with
/// transfers that are looked up has those of the lookup routine, too.
pub fn emits<T: InsnTable>()
    ensures emits { Emits T.rows }
    ensures lookup { IsTrue (has_lookup T.rows) → EmitsLookup T.rows }
{}

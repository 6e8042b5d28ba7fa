//! What the rewriter uses of a table of instructions.

ghost use Rattle.rz_rewrite.specs.Calls.Table.{TableFacts};

use rz_decode::laws::decoded_laws;
use rz_encode::laws::{canonical_lengths, decodes_back};
use rz_frag::laws::{fragments_are_sized, fragments_simulate};
use rz_isa::InsnTable;
use rz_isa::laws::{emits, lengths};
use rz_lookup::laws::{routine_is_sized, routine_looks_up};
use rz_sites::laws::{sites_are_sized, sites_simulate};

// What the rewriter uses of a table.
pub(crate) fn table_facts<T: InsnTable>()
    ensures { TableFacts T.rows }
{
    decoded_laws::<T>();
    decodes_back::<T>();
    canonical_lengths::<T>();
    lengths::<T>();
    emits::<T>();
    fragments_simulate::<T>();
    fragments_are_sized::<T>();
    sites_simulate::<T>();
    sites_are_sized::<T>();
    routine_looks_up::<T>();
    routine_is_sized::<T>();
}

//! The bytes of tables.

ghost use Rattle.std.specs.Prelude.{◌≡◌, ◌^◌, ◌<◌, ◌++◌, OnOk, OnErr};
ghost use Rattle.std.specs.List.{AllByRecursion};
ghost use Rattle.rz_machine.specs.Tables.{IsTable, table_of, pairs_bytes};

use rz_num::{Bytes, OutOfMemory, Pairs, push_u32, push_u64};
use std::alloc::Global;

/// Appends a table: the stub's place, the number of pairs, and the pairs of an old target and its new place, which
/// ascend by the old target. It refuses for want of memory alone, and then the bytes are as before.
pub fn table_bytes(
    alloc: Global,
    stub: u64,
    pairs: &Pairs,
    out: &mut Bytes,
) -> Result<(), OutOfMemory>
    requires { IsTable stub pairs.now }
    ensures ok { OnOk result (out.new ≡ out.old ++ table_of stub pairs.now) }
    ensures err { OnErr result (out.new ≡ out.old) }
{
    let mut table = Vec::new(alloc);
    push_u64(&mut table, stub)?;
    let list = pairs.as_slice();
    push_u64(&mut table, list.len() as u64)?;
    push_pairs(&mut table, list)?;
    out.push_all(table.as_slice())
}

// Appends the bytes of pairs.
fn push_pairs(table: &mut Vec<u8>, pairs: &[(u64, u64)]) -> Result<(), OutOfMemory>
    requires targets { AllByRecursion (λ p. p.0 < 2 ^ 32) pairs.now }
    requires places { AllByRecursion (λ p. p.1 < 2 ^ 32) pairs.now }
    ensures { OnOk result (table.new.items ≡ table.old.items ++ pairs_bytes pairs.now) }
{
    for (target, place) in pairs {
        push_u32(table, *target as u32)?;
        push_u32(table, *place as u32)?;
    }
    Ok(())
}

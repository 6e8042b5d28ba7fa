ghost use Rattle.std.specs.Prelude.{◌≡◌, ◌<◌, ◌++◌, length, slice_get, Some, refl};
ghost use Rattle.rz_isa.specs.Table.{OneRow, Lengths, OneCanonicalRow, CanonicalSpells};
ghost use Rattle.rz_table.specs.Profile2.{PROFILE2};
ghost use Rattle.rz_table.specs.Listing.{takes_lock as op_takes_lock, with_lock as row_with_lock, profile2_rows};
ghost use Rattle.rz_table.specs.Laws.Extended.{emits, emits_lookup};

use crate::further_rows::FURTHER;
use crate::index::{cell, class_place, opcode_place};
use crate::profile::pick;
use crate::profile_rows::PROFILE;
use crate::profile2_index::{
    PROFILE2_CLASS_ROWS, PROFILE2_CLASS_STARTS, PROFILE2_OPCODE_ROWS, PROFILE2_OPCODE_STARTS,
};
use rz_flags::{ArithOp, BitOp};
use rz_isa::{Class, InsnTable, Letter, Op, OpMap, Row};

/// The table of profile 2. It has 223 rows: those of profile 1, and behind them RCL, RCR, CMPXCHG, XADD, CMPS and SCAS.
/// The operations that change memory in one step take the prefix F0 (Intel SDM, volume 2, "LOCK").
#[derive(Clone, Copy)]
pub struct Profile2;

fn takes_lock(op: Op) -> bool
    ensures { result ≡ op_takes_lock op }
{
    match op {
        Op::Arith(ArithOp::Cmp, _, _) | Op::BitTest(BitOp::Test, _, _) => false,
        Op::Arith(_, Letter::E, _) | Op::BitTest(_, Letter::E, _) => true,
        Op::Unary(_, Letter::E) | Op::Xchg(Letter::E, _) => true,
        Op::CmpXchg(Letter::E, _) | Op::Xadd(Letter::E, _) => true,
        _ => false,
    }
}

fn with_lock(row: Row) -> Row
    ensures { result ≡ row_with_lock row }
{
    Row {
        lock: takes_lock(row.op),
        ..row
    }
}

// The row of a number, counted through the first rows and on through the others.
fn pick_of_both(first: &[Row], others: &[Row], n: usize) -> Row
    requires { n < length (first.now ++ others.now) }
    ensures { slice_get (first.now ++ others.now) n ≡ Some result }
{
    match n.checked_sub(first.len()) {
        None => pick(first, n),
        Some(behind) => pick(others, behind),
    }
}

impl InsnTable for Profile2 {
    ghost rows = { PROFILE2 };

    /// How many rows there are. The rows are those of the lines in `Listing`. The other clauses are
    /// the laws of the table, as of profile 1.
    fn count() -> usize
        ensures length { result ≡ length PROFILE2 }
        ensures listed { PROFILE2 ≡ profile2_rows }
        ensures one_row { OneRow PROFILE2 }
        ensures lengths { Lengths PROFILE2 }
        ensures one_canonical_row { OneCanonicalRow PROFILE2 }
        ensures canonical_spells { CanonicalSpells PROFILE2 }
    {
        PROFILE.len() + FURTHER.len()
    }

    fn row(n: usize) -> Row {
        with_lock(pick_of_both(&PROFILE, &FURTHER, n))
    }

    fn rows_at(map: OpMap, opcode: u8) -> &'static [u8] {
        cell(
            &PROFILE2_OPCODE_STARTS,
            &PROFILE2_OPCODE_ROWS,
            opcode_place(map, opcode),
        )
    }

    fn rows_of(class: Class) -> &'static [u8] {
        cell(
            &PROFILE2_CLASS_STARTS,
            &PROFILE2_CLASS_ROWS,
            class_place(class),
        )
    }

    ghost plain = { refl };

    ghost exclude = { refl };

    ghost regular = { refl };

    ghost suited = { refl };

    ghost emits = { emits };

    ghost emits_lookup = { emits_lookup };
}

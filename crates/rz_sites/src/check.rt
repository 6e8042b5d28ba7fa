// The check of a value in RCX.

ghost use Rattle.std.specs.Prelude.{◌≡◌, pos, ◌+◌, ◌*◌, ◌^◌, ◌<◌, ◌-ℤ◌, length, ◌++◌, OnOk};
ghost use Rattle.std.specs.List.{AllByRecursion};
ghost use Rattle.rz_machine.specs.Sequence.{piece, check as check_of};

use crate::moves::{RCX, add_to, jump, load_at};
use rz_isa::{Item, Items, Label};
use rz_num::{OutOfMemory, Words};

/// Appends the check of the value in RCX against the targets, from which each other value leads to the stub of `at`.
/// It refuses for want of memory alone.
pub fn push_check(
    items: &mut Items,
    scratch: u64,
    at: u64,
    targets: &Words,
) -> Result<(), OutOfMemory>
    requires low { AllByRecursion (λ t. t < 2 ^ 31) targets.now }
    requires scratch { scratch < 2 ^ 31 }
    requires few { length items.old + 5 * length targets.now + 5 < 2 ^ 32 }
    ensures { OnOk result (items.new ≡ items.old ++ check_of scratch at (length items.old) 0 targets.now) }
{
    let mut previous = 0;
    for target in targets.as_slice() {
        push_piece(items, scratch, previous, *target)?;
        previous = *target;
    }
    items.push(load_at(scratch))?;
    items.push(jump(Label::Stub(at)))?;
    Ok(())
}

// Appends the check against one target, where RCX is the value minus the one before.
fn push_piece(
    items: &mut Items,
    scratch: u64,
    previous: u64,
    target: u64,
) -> Result<(), OutOfMemory>
    requires previous { previous < 2 ^ 31 }
    requires target { target < 2 ^ 31 }
    requires scratch { scratch < 2 ^ 31 }
    requires few { length items.old + 5 < 2 ^ 32 }
    ensures { OnOk result (items.new ≡ items.old ++ piece scratch (length items.old) previous target) }
{
    let first = items.as_slice().len() as u32;
    items.push(add_to(RCX, difference(previous, target)))?;
    items.push(Item::Jrcxz {
        to: Label::Item(first + 3),
    })?;
    items.push(jump(Label::Item(first + 5)))?;
    items.push(load_at(scratch))?;
    items.push(jump(Label::Place(target)))?;
    Ok(())
}

// The difference of two low numbers.
fn difference(a: u64, b: u64) -> i32
    requires a { a < 2 ^ 31 }
    requires b { b < 2 ^ 31 }
    ensures { result ≡ pos a -ℤ pos b }
{
    (a as i64 - b as i64) as i32
}

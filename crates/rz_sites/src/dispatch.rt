// What leads a value in RCX on.

ghost use Rattle.std.specs.Prelude.{◌≡◌, ◌+◌, ◌*◌, ◌^◌, ◌<◌, length, ◌++◌, OnOk};
ghost use Rattle.std.specs.List.{AllByRecursion};
ghost use Rattle.rz_machine.specs.Sequence.{dispatch, look_up};

use crate::check::push_check;
use crate::moves::jump;
use rz_isa::{Item, Items, Label};
use rz_num::{OutOfMemory, Words};

// How many targets are tried in turn, where more are looked up. Saving and restoring the flags, and the branches of the
// search that a processor predicts wrongly, make the routine slower below it.
const CHAIN_MAX: usize = 32;

/// Appends what leads the value in RCX on: to its target, where it is one of these, else to the stub of `at`. Up to 32
/// targets are tried in turn; more are looked up in the table of `at`. It refuses for want of memory alone.
pub fn push_dispatch(
    items: &mut Items,
    scratch: u64,
    at: u64,
    targets: &Words,
) -> Result<(), OutOfMemory>
    requires low { AllByRecursion (λ t. t < 2 ^ 31) targets.now }
    requires scratch { scratch + 16 < 2 ^ 31 }
    requires few { length items.old + 5 * length targets.now + 5 < 2 ^ 32 }
    ensures { OnOk result (items.new ≡ items.old ++ dispatch scratch at (length items.old) targets.now) }
{
    if targets.as_slice().len() <= CHAIN_MAX {
        push_check(items, scratch, at, targets)
    } else {
        push_lookup(items, scratch, at)
    }
}

// Appends the two items that have the value in RCX looked up in the table of `at`.
fn push_lookup(items: &mut Items, scratch: u64, at: u64) -> Result<(), OutOfMemory>
    requires { scratch + 16 < 2 ^ 31 }
    ensures { OnOk result (items.new ≡ items.old ++ look_up scratch at) }
{
    items.push(Item::Store {
        at: scratch + 16,
        label: Label::Table(at),
    })?;
    items.push(jump(Label::Routine))
}

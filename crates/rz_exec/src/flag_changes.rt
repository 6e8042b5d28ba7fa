//! Changes of CF and DF.

ghost use Rattle.std.specs.Prelude.{◌≡◌};
ghost use Rattle.rz_exec.specs.FlagChanges.{changed as changed_by};

use rz_flags::{FlagOp, Flags};

pub(crate) fn changed(op: FlagOp, flags: Flags) -> Flags
    ensures { result ≡ changed_by op flags }
{
    match op {
        FlagOp::Clc => Flags { cf: false, ..flags },
        FlagOp::Stc => Flags { cf: true, ..flags },
        FlagOp::Cmc => Flags {
            cf: !flags.cf,
            ..flags
        },
        FlagOp::Cld => Flags { df: false, ..flags },
        FlagOp::Std => Flags { df: true, ..flags },
    }
}

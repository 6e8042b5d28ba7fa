//! Tests and changes of one bit.

ghost use Rattle.std.specs.Prelude.{◌≡◌};
ghost use Rattle.rz_alu.specs.Bits.{bit_test, bit_after};

use rz_flags::{BitOp, Flags};
use rz_num::{Width, mask};

/// The operand, which is cut to the width, after one bit of it was copied to CF and then left, set, cleared or inverted,
/// and the flags. The bit's place is the index modulo the width
/// (Intel SDM, volume 2, "BT", "BTS", "BTR", "BTC"). It takes no memory.
#[tactic(auto, using(crate::proofs::BitLaws::clear_room))]
pub fn bit_test(op: BitOp, w: Width, a: u64, index: u64, flags: Flags) -> (u64, Flags)
    ensures value { result.0 ≡ (bit_test op w a index flags).value }
    ensures flags { result.1 ≡ (bit_test op w a index flags).flags }
{
    let a = mask(w, a);
    let place = index % w.bits() as u64;
    let cf = (a >> place) % 2 == 1;
    let worth = 1 << place;
    let cleared = if cf { a - worth } else { a };
    let value = if bit_after(op, cf) {
        cleared + worth
    } else {
        cleared
    };
    (value, Flags { cf, ..flags })
}

// A bit after an operation.
fn bit_after(op: BitOp, on: bool) -> bool
    ensures { result ≡ bit_after op on }
{
    match op {
        BitOp::Test => on,
        BitOp::Set => true,
        BitOp::Reset => false,
        BitOp::Complement => !on,
    }
}

ghost use Rattle.std.specs.Prelude.{◌≡◌, ◌≤◌, ℕ, List, length, take, drop, Some, IsSome, is_some};
ghost use Rattle.rz_isa.specs.Canonical.{canonical, chosen};
ghost use Rattle.rz_encode.specs.Length.{chosen_len};
ghost use Rattle.rz_encode.specs.Laws.{DecodesTo};

use crate::choose::choose;
use crate::length::spelled_count;
use crate::reach::reaches;
use crate::spelling::spell;
use rz_isa::{Form, Insn, InsnTable};

/// Writes the canonical spelling of the form that the instruction has at the address `at` to the
/// front of the buffer, and answers its length in bytes. What stands behind it is unchanged. It
/// takes no memory; `spells` is the test of its condition.
pub fn encode<T: InsnTable>(insn: &Insn, at: u64, form: Form, out: &mut [u8; 15]) -> u8
    requires { IsSome (canonical T.rows insn.now at form) }
    ensures spelling { canonical T.rows insn.now at form ≡ Some (take result out.new) }
    ensures behind { drop result out.new ≡ drop result out.old }
    ensures short { result ≤ 15 }
    ensures decodes { DecodesTo T.rows (take result out.new) at insn.now }
{
    if let Some(choice) = choose::<T>(insn, form) {
        let len = spelled_count(&choice.row, &choice.fields);
        let next = at.wrapping_add(len as u64);
        return spell(&choice.row, &choice.fields, next, out) as u8;
    }
    0
}

/// The length in bytes of the canonical spelling of the form, the same at every address where the
/// instruction has one. An instruction that some row of the form spells at some address meets
/// the condition.
pub fn form_len<T: InsnTable>(insn: &Insn, form: Form) -> u8
    requires { IsSome (chosen T.rows form insn.now) }
    ensures value { result ≡ chosen_len (chosen T.rows form insn.now) }
    ensures same { (at : ℕ) (s : List ℕ) → canonical T.rows insn.now at form ≡ Some s → length s ≡ result }
{
    if let Some(choice) = choose::<T>(insn, form) {
        return spelled_count(&choice.row, &choice.fields) as u8;
    }
    0
}

/// Whether the instruction has a canonical spelling of the form at the address `at`: some row of
/// the form can have fields that build it, and what it names by address is in reach. It takes
/// no memory.
pub fn spells<T: InsnTable>(insn: &Insn, at: u64, form: Form) -> bool
    ensures { result ≡ is_some (canonical T.rows insn.now at form) }
{
    match choose::<T>(insn, form) {
        None => false,
        Some(choice) => {
            let len = spelled_count(&choice.row, &choice.fields);
            let next = at.wrapping_add(len as u64);
            reaches(&choice.row, &choice.fields, next)
        }
    }
}

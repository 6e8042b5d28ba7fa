ghost use Rattle.std.specs.Prelude.{◌≤◌};

use rz_decode::decode;
use rz_encode::{encode, form_len, spells};
use rz_isa::{Decoded, Form, InsnTable};
use rz_table::Profile1;

// The length of the near canonical spelling of the instruction that stands at the front of the
// bytes at 0x1000, which is written to the buffer; 0 where there is no instruction or none such.
fn spell_anew<T: InsnTable>(bytes: &[u8], out: &mut [u8; 15]) -> u8
    ensures { result ≤ 15 }
{
    match decode::<T>(bytes, 0x1000) {
        Decoded::Insn { insn, .. } => {
            if spells::<T>(&insn, 0x1000, Form::Near) {
                encode::<T>(&insn, 0x1000, Form::Near, out).min(form_len::<T>(&insn, Form::Near))
            } else {
                0
            }
        }
        _ => 0,
    }
}

// Bytes, and how many bytes the canonical spelling by profile 1 has: lea with a needless
// displacement, a move of 1 to a 64-bit register, PAUSE, add of memory, ret, a lone prefix.
#[test]
fn profile_spells_anew(rt: HostRuntime) {
    let cases: [(&[u8], u8); 6] = [
        (&[0x48, 0x8d, 0xa4, 0x24, 0x10, 0, 0, 0], 5),
        (&[0x48, 0xb8, 1, 0, 0, 0, 0, 0, 0, 0], 7),
        (&[0xf3, 0x90], 1),
        (&[0x3e, 0x03, 0x44, 0x24, 0x10], 4),
        (&[0xc3], 1),
        (&[0x66], 0),
    ];
    for (bytes, length) in cases {
        let mut out = [0xcc; 15];
        assert!(rt;
            spell_anew::<Profile1>(bytes, &mut out) == length,
            "at {bytes:?}"
        );
    }
}

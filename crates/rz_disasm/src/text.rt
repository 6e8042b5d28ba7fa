// The line of an instruction.

ghost use Rattle.std.specs.Prelude.{◌≡◌, IfOk};
ghost use Rattle.rz_disasm.specs.Line.{line_text};

use crate::statement::statement_of;
use rz_isa::Insn;
use rz_num::{Bytes, OutOfMemory};
use std::alloc::Global;

/// The line of an instruction at the address `at`, whose spelling has these bytes: the address, the bytes and the text
/// (Intel SDM, volume 1, section 1.3.2.1), with a space between them and no line feed. Any register numbers will do; one
/// that no register has is printed as an empty name. It refuses for want of memory alone.
#[tactic(auto, unfolding(crate::specs::Line::line_text))]
pub fn line(alloc: Global, at: u64, bytes: &[u8], insn: &Insn) -> Result<Bytes, OutOfMemory>
    ensures { IfOk result (λ text. text ≡ line_text at bytes.now insn.now) }
{
    let spelling = hex::encode(alloc, bytes)?;
    let statement = statement_of(insn);
    let text = format!(in alloc; "0x{at:x} {spelling} {statement}")?;
    Ok(Bytes::from_vec(text.into_bytes()))
}

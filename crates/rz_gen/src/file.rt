// Generated files.

ghost use Rattle.std.specs.Prelude.{◌≡◌, ◌≤◌, None, IfOk};
ghost use Rattle.rz_elf.specs.Elf.{fault_of};
ghost use Rattle.rz_gen.specs.Generated.{generated};

use crate::code::push_code;
use crate::headers::push_header_page;
use crate::places::head_size;
use rz_num::{Bytes, OutOfMemory};
use std::alloc::Global;

/// The most steps that a generated program is run for.
pub const GEN_STEPS_LIMIT: u64 = 1_000_000;

// The bytes of a function and of its word in the table.
const SIZE_OF_EACH: u64 = 24;

/// The file of a program of `n` functions, 1 to 4000: it calls each of them, then each through a table from the last
/// one on, and exits with the low byte of the sum that they make. It refuses for want of memory alone.
pub fn gen_file(alloc: Global, n: u32) -> Result<Bytes, OutOfMemory>
    requires some { 1 ≤ n }
    requires few { n ≤ 4000 }
    ensures bytes { IfOk result (λ file. file ≡ generated n) }
    ensures accepted { IfOk result (λ file. fault_of file ≡ None) }
{
    let mut out = Vec::new(alloc);
    push_header_page(&mut out, head_size(n) as u64 + SIZE_OF_EACH * n as u64)?;
    push_code(&mut out, n)?;
    Ok(Bytes::from_vec(out))
}

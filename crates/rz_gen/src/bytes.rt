// Appending to the bytes of a file.

ghost use Rattle.std.specs.Prelude.{◌≡◌, ◌≤◌, ◌++◌, OnOk};
ghost use Rattle.rz_gen.specs.Code.{filling};

use rz_num::OutOfMemory;

/// Appends a byte `count` times, at most a page of it.
pub fn push_filling(out: &mut Vec<u8>, byte: u8, count: usize) -> Result<(), OutOfMemory>
    requires { count ≤ 4096 }
    ensures { OnOk result (out.new.items ≡ out.old.items ++ filling byte count) }
{
    let len = out.len();
    out.resize(len + count, byte)?;
    Ok(())
}

//! Words of memory, read and written where an operand has an address.

ghost use Rattle.std.specs.Prelude.{◌≡◌, Ok, Err, OnOk, OnErr, IfOk, IfErr};
ghost use Rattle.rz_exec.specs.Form.{read_word, write_word};
ghost use Rattle.rz_exec.specs.Operands.{word_at};
ghost use Rattle.rz_exec.specs.Fault.{exception_of};

use crate::state::Fault;
use rz_image::memory::Memory;
use rz_num::Width;

// The word at an address; 0 where there is none.
#[inline(always)]
pub fn read(mem: &Memory, w: Width, at: Option<u64>) -> Result<u64, Fault>
    ensures ok { IfOk result (λ word. read_word mem.now (word_at w at) ≡ Ok word) }
    ensures err { IfErr result (λ fault. read_word mem.now (word_at w at) ≡ Err (exception_of fault)) }
{
    let Some(at) = at else {
        return Ok(0);
    };
    match mem.load(at, w) {
        Ok(word) => Ok(word),
        Err(touch) => Err(Fault::Memory(touch.address)),
    }
}

// Writes a word at an address, where there is one.
#[inline(always)]
pub fn write(mem: &mut Memory, w: Width, at: Option<u64>, word: u64) -> Result<(), Fault>
    ensures ok { OnOk result (write_word mem.old (word_at w at) word ≡ Ok mem.new) }
    ensures err { IfErr result (λ fault. write_word mem.old (word_at w at) word ≡ Err (exception_of fault)) }
    ensures unchanged { OnErr result (mem.new ≡ mem.old) }
{
    let Some(at) = at else {
        return Ok(());
    };
    match mem.store(at, w, word) {
        Ok(()) => Ok(()),
        Err(touch) => Err(Fault::Memory(touch.address)),
    }
}

// Reads and writes of more than one piece.

ghost use Rattle.std.specs.Prelude.{◌≡◌, ℕ, take, OnOk, OnErr, IfOk, IfSome};
ghost use Rattle.std.specs.Io.KnownBytes.{Appends};

use crate::ReadErr;
use rz_num::Bytes;
use std::alloc::Global;
use std::io::{Read, Write};

/// The writer refused, or took nothing of what was left.
#[derive(Clone, Copy)]
pub struct Stopped;

/// Writes each byte. A write that takes nothing of what is left has failed.
///
/// Where it stops, a first part of the bytes was written.
pub fn write_whole<W: Write>(to: &mut W, bytes: &[u8]) -> Result<(), Stopped>
    ensures ok { OnOk result (Appends (W.contents to.old) (W.contents to.new) bytes.now) }
    ensures part { OnErr result ((k : ℕ)
        × Appends (W.contents to.old) (W.contents to.new) (take k bytes.now)) }
{
    let mut done = 0;
    while done < bytes.len() {
        let Ok(taken) = to.write(&bytes[done..]) else {
            return Err(Stopped);
        };
        if taken == 0 {
            return Err(Stopped);
        }
        done += taken;
    }
    Ok(())
}

// The bytes taken by one read, at most.
const PIECE: usize = 8192;

/// Reads the first `max` bytes, or all where there are fewer. A read that gives nothing is the end.
pub fn read_first<R: Read>(alloc: Global, from: &mut R, max: u64) -> Result<Bytes, ReadErr>
    ensures { IfOk result (λ bytes. IfSome (R.remaining from.old) (λ all. bytes ≡ take max all)) }
{
    let mut bytes = Bytes::new(alloc);
    let mut piece = [0u8; PIECE];
    let mut left = max;
    while 0 < left {
        let want = if left < PIECE as u64 {
            left as usize
        } else {
            PIECE
        };
        let Ok(got) = from.read(&mut piece[..want]) else {
            return Err(ReadErr::Failed);
        };
        if got == 0 {
            break;
        }
        bytes.push_all(&piece[..got])?;
        left -= got as u64;
    }
    Ok(bytes)
}

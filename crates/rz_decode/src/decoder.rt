ghost use Rattle.std.specs.Prelude.{◌≡◌, ◌<◌, ◌≤◌, ℕ, Some, length, IsTrue, IfSome, IfNone, false};
ghost use Rattle.rz_isa.specs.Regular.{is_regular};
ghost use Rattle.rz_isa.specs.Decoded.{front_at, serves as serves_bytes, decoded_by, decoded};
ghost use Rattle.rz_isa.specs.DecodedLaws.{Exact};
ghost use Rattle.rz_decode.specs.Calls.Views.{front_view};
ghost use Rattle.rz_decode.specs.Calls.Decode.{IsFront, Says, ListsServing, EndsBeforeOpcode};

use crate::field::fields;
use crate::fit::{front_len, suits};
use crate::front::{Front, opcode_at, split_prefixes, split_rex, unfinished_front};
use crate::parts::parts_of;
use rz_isa::{Decoded, InsnTable, Row, build};

fn decode_whole(row: &Row, front: &Front, bytes: &[u8], at: u64) -> Decoded
    requires short { length bytes.now ≤ 15 }
    requires few { length front.now.prefixes.now ≤ 16 }
    requires front { front_view front.now ≡ front_at row.now bytes.now }
    requires serves { IsTrue (serves_bytes bytes.now row.now) }
    requires regular { IsTrue (is_regular row.now) }
    ensures { result ≡ decoded_by bytes.now at (Some row.now) }
{
    let len = front_len(row, front);
    if len > bytes.len() {
        return Decoded::Short;
    }
    let next = at.wrapping_add(len as u64);
    let insn = build(row, &fields(row, &parts_of(row, front), next));
    Decoded::Insn {
        insn,
        len: len as u8,
    }
}

// What the row says of the bytes; `None` where it doesn't take their front.
fn decode_by(row: &Row, front: &Front, bytes: &[u8], at: u64) -> Option<Decoded>
    requires short { length bytes.now ≤ 15 }
    requires few { length front.now.prefixes.now ≤ 16 }
    requires front { front_view front.now ≡ front_at row.now bytes.now }
    requires regular { IsTrue (is_regular row.now) }
    ensures some { IfSome result (Says row.now bytes.now at) }
    ensures none { IfNone result (serves_bytes bytes.now row.now ≡ false) }
{
    if suits(row, front) {
        Some(decode_whole(row, front, bytes, at))
    } else {
        None
    }
}

// The bytes have an opcode, and all rows that take it are among the numbers.
fn decode_among<T: InsnTable>(numbers: &[u8], front: &Front, bytes: &[u8], at: u64) -> Decoded
    requires short { length bytes.now ≤ 15 }
    requires few { length front.now.prefixes.now ≤ 16 }
    requires front { IsFront bytes.now front.now }
    requires listed { ListsServing T.rows bytes.now numbers.now }
    ensures { result ≡ decoded T.rows bytes.now at }
{
    for number in numbers {
        let n = *number as usize;
        if n < T::count() {
            if let Some(d) = decode_by(&T::row(n), front, bytes, at) {
                return d;
            }
        }
    }
    Decoded::Unknown
}

// The bytes end before their opcode: whether some row goes on from there.
fn decode_unfinished<T: InsnTable>(bytes: &[u8]) -> Decoded
    requires short { length bytes.now < 15 }
    requires ended { EndsBeforeOpcode bytes.now }
    ensures { (at : ℕ) → result ≡ decoded T.rows bytes.now at }
{
    let (prefixes, rest) = split_prefixes(bytes);
    let count = prefixes.len();
    let mut room = [0xf3; 16];
    room[..count].copy_from_slice(prefixes);
    let with_f3 = &room[..count + 1];
    for n in 0..T::count() {
        let row = T::row(n);
        if suits(&row, &unfinished_front(&row, prefixes, with_f3, rest)) {
            return Decoded::Short;
        }
    }
    Decoded::Unknown
}

fn decode_front<T: InsnTable>(bytes: &[u8], at: u64) -> Decoded
    requires { length bytes.now ≤ 15 }
    ensures { result ≡ decoded T.rows bytes.now at }
{
    let (prefixes, rest) = split_prefixes(bytes);
    let (rex, behind) = split_rex(rest);
    match opcode_at(behind) {
        Some(opcode) => {
            let numbers = T::rows_at(opcode.map, opcode.byte);
            let front = Front {
                prefixes,
                rex,
                opcode,
            };
            decode_among::<T>(numbers, &front, bytes, at)
        }
        None if bytes.len() < 15 => decode_unfinished::<T>(bytes),
        None => Decoded::Unknown,
    }
}

/// What stands at the front of the bytes, which stand at the address `at`: `Insn` where the first
/// `len` bytes spell the instruction there, `Short` exactly where the bytes begin a spelling and
/// end inside it, `Unknown` exactly where no front of them is a spelling and they begin none.
/// Only the first 15 bytes count. It takes no memory and never refuses; bytes that have an opcode
/// are tried on the rows of `rows_at` alone.
pub fn decode<T: InsnTable>(bytes: &[u8], at: u64) -> Decoded
    ensures value { result ≡ decoded T.rows bytes.now at }
    ensures exact { Exact T.rows bytes.now at result }
{
    decode_front::<T>(&bytes[..bytes.len().min(15)], at)
}

// Little-endian fields, as ELF files for x86-64 and the machine's memory have them.

ghost use Rattle.std.specs.Prelude.{◌≡◌, ◌≤◌, ◌+◌, ◌++◌, length, take, drop, OnOk};
ghost use Rattle.byteorder.specs.Endian.{little_number, little_bytes};

use crate::want::OutOfMemory;
use byteorder::{ByteOrder, LittleEndian};

/// The number in the two bytes from place `at`.
pub fn get_u16(bytes: &[u8], at: usize) -> u16
    requires { at + 2 ≤ length bytes.now }
    ensures { result ≡ little_number 2 (drop at bytes.now) }
{
    LittleEndian::read_u16(&bytes[at..])
}

/// The number in the four bytes from place `at`.
pub fn get_u32(bytes: &[u8], at: usize) -> u32
    requires { at + 4 ≤ length bytes.now }
    ensures { result ≡ little_number 4 (drop at bytes.now) }
{
    LittleEndian::read_u32(&bytes[at..])
}

/// The number in the eight bytes from place `at`.
pub fn get_u64(bytes: &[u8], at: usize) -> u64
    requires { at + 8 ≤ length bytes.now }
    ensures { result ≡ little_number 8 (drop at bytes.now) }
{
    LittleEndian::read_u64(&bytes[at..])
}

/// Writes the two bytes of a number from place `at` on. All other bytes stay.
pub fn put_u16(bytes: &mut [u8], at: usize, value: u16)
    requires { at + 2 ≤ length bytes.old }
    ensures { bytes.new ≡ take at bytes.old ++ (little_bytes 2 value ++ drop (at + 2) bytes.old) }
{
    LittleEndian::write_u16(&mut bytes[at..at + 2], value);
}

/// Writes the four bytes of a number from place `at` on. All other bytes stay.
pub fn put_u32(bytes: &mut [u8], at: usize, value: u32)
    requires { at + 4 ≤ length bytes.old }
    ensures { bytes.new ≡ take at bytes.old ++ (little_bytes 4 value ++ drop (at + 4) bytes.old) }
{
    LittleEndian::write_u32(&mut bytes[at..at + 4], value);
}

/// Writes the eight bytes of a number from place `at` on. All other bytes stay.
pub fn put_u64(bytes: &mut [u8], at: usize, value: u64)
    requires { at + 8 ≤ length bytes.old }
    ensures { bytes.new ≡ take at bytes.old ++ (little_bytes 8 value ++ drop (at + 8) bytes.old) }
{
    LittleEndian::write_u64(&mut bytes[at..at + 8], value);
}

/// Appends the two bytes of a number. It refuses for want of memory alone.
pub fn push_u16(out: &mut Vec<u8>, value: u16) -> Result<(), OutOfMemory>
    ensures { OnOk result (out.new.items ≡ out.old.items ++ little_bytes 2 value) }
{
    out.extend_from_slice(&value.to_le_bytes())?;
    Ok(())
}

/// Appends the four bytes of a number. It refuses for want of memory alone.
pub fn push_u32(out: &mut Vec<u8>, value: u32) -> Result<(), OutOfMemory>
    ensures { OnOk result (out.new.items ≡ out.old.items ++ little_bytes 4 value) }
{
    out.extend_from_slice(&value.to_le_bytes())?;
    Ok(())
}

/// Appends the eight bytes of a number. It refuses for want of memory alone.
pub fn push_u64(out: &mut Vec<u8>, value: u64) -> Result<(), OutOfMemory>
    ensures { OnOk result (out.new.items ≡ out.old.items ++ little_bytes 8 value) }
{
    out.extend_from_slice(&value.to_le_bytes())?;
    Ok(())
}

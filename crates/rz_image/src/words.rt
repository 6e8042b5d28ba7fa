// Words in memory, the low byte first (Intel SDM, volume 1, section 1.3.1).

ghost use Rattle.std.specs.Prelude.{◌≡◌, ◌<◌, ◌≤◌, true, false, length, IsTrue, IfOk, IfErr, OnOk, OnErr, Option, Some, None};
ghost use Rattle.byteorder.specs.Endian.{little_number};
ghost use Rattle.rz_image.specs.Memory.{Ascend, cell_at, bytes_at, put_byte, put_bytes, refused as refused_at, is_readable, is_writable};
ghost use Rattle.rz_image.specs.Run.{allows};
ghost use Rattle.rz_image.specs.Word.{byte_count as byte_count_of, put_word, refused_word, word_at};

use crate::access::Access;
use crate::find::region_at;
use crate::region::{Region, Touch};
use crate::runs::{byte_at, count_in, run_at};
use rz_num::{Width, get_u16, get_u32, get_u64, put_u64};

/// The word at an address, or the first address that may not be read.
#[inline(always)]
pub fn load(regions: &[Region], at: u64, width: Width) -> Result<u64, Touch>
    requires { Ascend regions.now }
    ensures value { IfOk result (λ word. word ≡ word_at regions.now at width) }
    ensures allowed { IfOk result (λ word. refused_word is_readable regions.now at width ≡ None) }
    ensures touch { IfErr result (λ touch. refused_word is_readable regions.now at width ≡ Some touch.address) }
{
    let run = run_at(regions, at, Access::Read);
    if run.len() >= byte_count(width) {
        return Ok(word_of(run, width));
    }
    if let Some(address) = first_refused(regions, at, byte_count(width), Access::Read) {
        return Err(Touch { address });
    }
    Ok(word_of(&bytes_from(regions, at), width))
}

/// Writes a word at an address, or changes nothing and names the first address that may not be written.
#[inline(always)]
pub fn store(regions: &mut [Region], at: u64, width: Width, value: u64) -> Result<(), Touch>
    requires { Ascend regions.old }
    ensures stored { OnOk result (regions.new ≡ put_word regions.old at width value) }
    ensures allowed { OnOk result (refused_word is_writable regions.old at width ≡ None) }
    ensures unchanged { OnErr result (regions.new ≡ regions.old) }
    ensures touch { IfErr result (λ touch. refused_word is_writable regions.old at width ≡ Some touch.address) }
    ensures ascend { Ascend regions.new }
{
    let mut word = [0; 8];
    put_u64(&mut word, 0, value);
    let bytes = &word[..byte_count(width)];
    if put_run(regions, at, bytes) {
        return Ok(());
    }
    if let Some(address) = first_refused(regions, at, bytes.len(), Access::Write) {
        return Err(Touch { address });
    }
    put_each(regions, at, bytes);
    Ok(())
}

/// Fills `out` with the bytes from an address on where one region opens them all, and says whether it did.
pub fn load_run(regions: &[Region], at: u64, out: &mut [u8]) -> bool
    requires { Ascend regions.now }
    ensures done { IsTrue result → out.new ≡ bytes_at regions.now at (length out.old) }
    ensures allowed { IsTrue result → refused_at is_readable regions.now at (length out.old) ≡ None }
{
    let run = run_at(regions, at, Access::Read);
    if run.len() < out.len() {
        return false;
    }
    out.copy_from_slice(&run[..out.len()]);
    true
}

fn byte_count(width: Width) -> usize
    ensures { result ≡ byte_count_of width }
{
    match width {
        Width::W8 => 1,
        Width::W16 => 2,
        Width::W32 => 4,
        Width::W64 => 8,
    }
}

// The word in the first bytes.
fn word_of(bytes: &[u8], width: Width) -> u64
    requires { byte_count_of width ≤ length bytes.now }
    ensures { result ≡ little_number (byte_count_of width) bytes.now }
{
    match width {
        Width::W8 => bytes[0] as u64,
        Width::W16 => get_u16(bytes, 0) as u64,
        Width::W32 => get_u32(bytes, 0) as u64,
        Width::W64 => get_u64(bytes, 0),
    }
}

// The first of a few addresses that doesn't allow an access.
#[cold]
#[inline(never)]
fn first_refused(regions: &[Region], at: u64, len: usize, access: Access) -> Option<u64>
    requires { Ascend regions.now }
    ensures { result ≡ refused_at (allows access) regions.now at len }
{
    for k in 0..len {
        let address = at.wrapping_add(k as u64);
        if run_at(regions, address, access).is_empty() {
            return Some(address);
        }
    }
    None
}

// The eight bytes from an address on.
#[cold]
#[inline(never)]
fn bytes_from(regions: &[Region], at: u64) -> [u8; 8]
    requires { Ascend regions.now }
    ensures { result ≡ bytes_at regions.now at 8 }
{
    let mut bytes = [0; 8];
    for k in 0..8 {
        bytes[k] = byte_at(regions, at.wrapping_add(k as u64));
    }
    bytes
}

/// Writes bytes where one region opens them all, and says whether it did.
#[inline(always)]
pub fn put_run(regions: &mut [Region], at: u64, bytes: &[u8]) -> bool
    requires ascend { Ascend regions.old }
    requires some { 0 < length bytes.now }
    ensures done { IsTrue result → regions.new ≡ put_bytes regions.old at bytes.now }
    ensures allowed { IsTrue result → refused_at is_writable regions.old at (length bytes.now) ≡ None }
    ensures undone { result ≡ false → regions.new ≡ regions.old }
    ensures refused { result ≡ false → length bytes.now ≡ 1 → (cell_at regions.old at).write ≡ false }
    ensures ascend { Ascend regions.new }
{
    let Some(index) = region_at(regions, at) else {
        return false;
    };
    let region = &mut regions[index];
    let place = at - region.base;
    if count_in(region, place, Access::Write) < bytes.len() as u64 {
        return false;
    }
    region.bytes.overwrite(place as usize, bytes);
    true
}

/// Writes each byte that may be written, all at once where one region opens them.
pub fn store_bytes(regions: &mut [Region], at: u64, bytes: &[u8])
    requires { Ascend regions.old }
    ensures done { regions.new ≡ put_bytes regions.old at bytes.now }
    ensures ascend { Ascend regions.new }
{
    if bytes.is_empty() || !put_run(regions, at, bytes) {
        put_each(regions, at, bytes);
    }
}

// Writes each byte that may be written.
#[cold]
#[inline(never)]
fn put_each(regions: &mut [Region], at: u64, bytes: &[u8])
    requires { Ascend regions.old }
    ensures done { regions.new ≡ put_bytes regions.old at bytes.now }
    ensures ascend { Ascend regions.new }
{
    for (k, byte) in bytes.iter().enumerate() {
        put(regions, at.wrapping_add(k as u64), *byte);
    }
}

// Writes a byte where it may be written.
fn put(regions: &mut [Region], at: u64, byte: u8)
    requires { Ascend regions.old }
    ensures done { regions.new ≡ put_byte regions.old at byte }
    ensures ascend { Ascend regions.new }
{
    put_run(regions, at, &[byte]);
}

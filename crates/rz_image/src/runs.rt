// Runs of bytes that one region opens to an access, and what is made of them.

ghost use Rattle.std.specs.Prelude.{◌≡◌, ◌+◌, ◌-◌, ◌^◌, ◌<◌, ◌≤◌, length, take, is_none, IfOk};
ghost use Rattle.rz_image.specs.declared.access.Access.TheVariants.{Execute};
ghost use Rattle.rz_image.specs.Memory.{Ascend, cell_at, bytes_at, fetch as fetch_at, refused as refused_at};
ghost use Rattle.rz_image.specs.Run.{allows, run_in as run_of, IsRun, IsFront, HasRun};

use crate::access::Access;
use crate::find::region_at;
use crate::region::Region;
use rz_num::{Bytes, OutOfMemory};
use std::alloc::Global;

/// Bytes from an address on that its region opens to an access: none only where the first doesn't allow it.
#[inline(always)]
pub fn run_at(regions: &[Region], at: u64, access: Access) -> &[u8]
    requires { Ascend regions.now }
    ensures { IsRun access regions.now at result.now }
{
    let Some(index) = region_at(regions, at) else {
        return &[];
    };
    let region = &regions[index];
    run_in(region, at - region.base, access)
}

// Bytes from a place of a region on that are open to an access: at least one, where there is one.
#[inline(always)]
fn run_in(region: &Region, place: u64, access: Access) -> &[u8]
    requires inside { place ≤ length region.now.bytes }
    requires opened { region.now.opened ≤ length region.now.bytes }
    ensures { IsFront result.now (run_of access region.now place) }
{
    if !access.permitted(region.perm) || region.opened <= place {
        return &[];
    }
    region.bytes.run(place as usize, region.opened as usize)
}

/// How many bytes from a place of a region on are open to an access.
#[inline(always)]
pub fn count_in(region: &Region, place: u64, access: Access) -> u64
    requires inside { place ≤ length region.now.bytes }
    requires opened { region.now.opened ≤ length region.now.bytes }
    ensures { result ≡ length (run_of access region.now place) }
{
    if !access.permitted(region.perm) || region.opened <= place {
        return 0;
    }
    region.opened - place
}

// How many bytes from an address on its region opens to an access.
fn count_at(regions: &[Region], at: u64, access: Access) -> u64
    requires { Ascend regions.now }
    ensures { HasRun access regions.now at result }
{
    let Some(index) = region_at(regions, at) else {
        return 0;
    };
    let region = &regions[index];
    count_in(region, at - region.base, access)
}

/// The executable bytes at an address, up to the first that isn't, and at most 15: how many there are.
/// They are the first ones of `out`.
pub fn fetch(regions: &[Region], at: u64, out: &mut [u8; 15]) -> u8
    requires { Ascend regions.now }
    ensures length { result ≤ 15 }
    ensures bytes { take result out.new ≡ fetch_at regions.now at 15 }
{
    let mut n: usize = 0;
    while n < 15 {
        let Some(a) = at.checked_add(n as u64) else {
            return n as u8;
        };
        let run = run_at(regions, a, Access::Execute);
        if run.is_empty() {
            return n as u8;
        }
        let more = run.len().min(15 - n);
        out[n..n + more].copy_from_slice(&run[..more]);
        n += more;
    }
    n as u8
}

/// Whether each of the `len` bytes from an address on allows an access.
pub fn all_allow(regions: &[Region], at: u64, len: u64, access: Access) -> bool
    requires ascend { Ascend regions.now }
    requires fits { at + len ≤ 2 ^ 64 }
    ensures { result ≡ is_none (refused_at (allows access) regions.now at len) }
{
    let mut done: u64 = 0;
    while done < len {
        let count = count_at(regions, at + done, access);
        if count == 0 {
            return false;
        }
        done += count.min(len - done);
    }
    true
}

/// The `len` bytes from an address on, whatever their permissions; 0 where there is none.
/// It refuses for want of memory alone.
pub fn copy(alloc: Global, regions: &[Region], at: u64, len: u64) -> Result<Bytes, OutOfMemory>
    requires ascend { Ascend regions.now }
    requires fits { at + len ≤ 2 ^ 64 }
    ensures { IfOk result (λ bytes. bytes ≡ bytes_at regions.now at len) }
{
    let mut out = Bytes::new(alloc);
    let mut done: u64 = 0;
    while done < len {
        let run = run_at(regions, at + done, Access::Read);
        if run.is_empty() {
            out.push(byte_at(regions, at + done))?;
            done += 1;
        } else {
            let more = (run.len() as u64).min(len - done);
            out.push_all(&run[..more as usize])?;
            done += more;
        }
    }
    Ok(out)
}

/// The byte at an address, whatever its permissions; 0 where there is none.
pub fn byte_at(regions: &[Region], at: u64) -> u8
    requires { Ascend regions.now }
    ensures { result ≡ (cell_at regions.now at).byte }
{
    let Some(index) = region_at(regions, at) else {
        return 0;
    };
    let region = &regions[index];
    region.bytes.byte((at - region.base) as usize)
}

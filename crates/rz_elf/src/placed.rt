// The program headers of a file.

ghost use Rattle.std.specs.Prelude.{◌≡◌, ◌+◌, ◌*◌, ◌≤◌, if◌then◌else◌, length, filter, IfOk, Some};
ghost use Rattle.rz_elf.specs.Elf.{against, file_header, is_load, isnt_above, placed, shares_page};
ghost use Rattle.rz_elf.specs.Loaded.{is_load_header};

use crate::header::FileHeader;
use crate::segment::{SEGMENT_SIZE, Segment};
use rz_num::OutOfMemory;
use std::alloc::Global;

/// A program header with its number, from 0, and the load before it.
#[derive(Clone, Copy)]
pub struct Placed {
    pub index: u32,
    pub before: Option<Segment>,
    pub segment: Segment,
}

impl Placed {
    /// Whether it is a load whose address isn't above that of the load before it.
    pub fn isnt_above(&self) -> bool
        ensures { result ≡ against isnt_above self.now }
    {
        match &self.before {
            Some(before) => self.segment.is_load() && self.segment.isnt_above(before),
            None => false,
        }
    }

    /// Whether it is a load with a byte in a page where the load before it has one.
    pub fn shares_page(&self) -> bool
        ensures { result ≡ against shares_page self.now }
    {
        match &self.before {
            Some(before) => self.segment.is_load() && self.segment.shares_page(before),
            None => false,
        }
    }
}

/// All program headers of a file. It refuses for want of memory alone.
pub fn read_placed(
    alloc: Global,
    file: &[u8],
    header: &FileHeader,
) -> Result<Vec<Placed>, OutOfMemory>
    requires header { header.now ≡ file_header file.now }
    requires inside { header.now.table_at + 56 * header.now.count ≤ length file.now }
    ensures { IfOk result (λ headers. headers.items ≡ placed file.now) }
{
    let mut headers = Vec::new(alloc);
    let mut before = None;
    for index in 0..header.count {
        let at = header.table_at as usize + SEGMENT_SIZE * index as usize;
        let segment = Segment::read(&file[at..]);
        headers.push(Placed {
            index: index as u32,
            before,
            segment,
        })?;
        before = later(before, segment);
    }
    Ok(headers)
}

// The load before the header that follows.
fn later(before: Option<Segment>, segment: Segment) -> Option<Segment>
    ensures { result ≡ (if is_load segment then Some segment else before) }
{
    if segment.is_load() {
        Some(segment)
    } else {
        before
    }
}

/// Those headers that are loads. It refuses for want of memory alone.
pub fn loads_among(alloc: Global, headers: &[Placed]) -> Result<Vec<Placed>, OutOfMemory>
    ensures { IfOk result (λ loads. loads.items ≡ filter is_load_header headers.now) }
{
    let mut loads = Vec::new(alloc);
    for header in headers {
        if header.segment.is_load() {
            loads.push(*header)?;
        }
    }
    Ok(loads)
}

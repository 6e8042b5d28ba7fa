// The region of an address.

ghost use Rattle.std.specs.Prelude.{◌≡◌, IfSome, IfNone};
ghost use Rattle.rz_image.specs.Memory.{Ascend, no_cell, cell_at, contains};
ghost use Rattle.rz_image.specs.Run.{HasRegion};

use crate::region::Region;

/// The number of the region that has an address. It is found by halving.
#[inline(always)]
pub fn region_at(regions: &[Region], at: u64) -> Option<usize>
    requires { Ascend regions.now }
    ensures some { IfSome result (λ i. HasRegion regions.now i at) }
    ensures none { IfNone result (cell_at regions.now at ≡ no_cell) }
{
    let after = regions.partition_point(|region| region.base <= at);
    if after == 0 {
        return None;
    }
    let index = after - 1;
    if !has_address(&regions[index], at) {
        return None;
    }
    Some(index)
}

#[inline(always)]
fn has_address(region: &Region, at: u64) -> bool
    ensures { result ≡ contains region.now at }
{
    region.base <= at && at - region.base < region.bytes.len() as u64
}

// What no clause says: worked accesses, and that the calls that take memory succeed.

ghost use Rattle.std.specs.Prelude.{◌≡◌, IfOk};
ghost use Rattle.number_tests.specs.Calls.CodeAndData.{code_and_data};

use rz_image::memory::Memory;
use rz_image::padded::Padded;
use rz_image::perm::Perm;
use rz_image::region::{Region, Touch};
use rz_num::{Bytes, OutOfMemory, Width};
use std::alloc::Global;
use std::test::Fail;

// Four bytes of code at 0x1000, and behind them four of which two are open, to read and to write.
fn two_regions(alloc: Global) -> Result<Memory, OutOfMemory>
    ensures { IfOk result (λ m. m ≡ code_and_data) }
{
    let mut regions = Vec::new(alloc);
    regions.push(Region {
        base: 0x1000,
        bytes: Padded::from_bytes(Bytes::from_slice(alloc, &[1, 2, 3, 4])?),
        opened: 4,
        perm: Perm::of_flags(5),
    })?;
    regions.push(Region {
        base: 0x1004,
        bytes: Padded::from_bytes(Bytes::from_slice(alloc, &[5, 6, 0, 0])?),
        opened: 2,
        perm: Perm::of_flags(6),
    })?;
    Ok(Memory::new(regions))
}

#[test]
fn words_cross_regions(rt: HostRuntime) -> Result<(), Fail> {
    let memory = two_regions(rt.alloc())?;
    assert_eq!(rt; memory.load(0x1000, Width::W32), Ok(0x0403_0201));
    assert_eq!(rt; memory.load(0x1002, Width::W32), Ok(0x0605_0403));
    assert_eq!(rt;
        memory.load(0x1003, Width::W32),
        Err(Touch { address: 0x1006 })
    );
    assert_eq!(rt;
        memory.load(u64::MAX, Width::W16),
        Err(Touch { address: u64::MAX })
    );
    assert_eq!(rt;
        memory.copy(rt.alloc(), 0x1003, 3)?.as_slice(),
        [4, 5, 6].as_slice()
    );
    Ok(())
}

#[test]
fn a_refused_store_changes_nothing(rt: HostRuntime) -> Result<(), Fail> {
    let mut memory = two_regions(rt.alloc())?;
    assert_eq!(rt;
        memory.store(0x1005, Width::W16, 0xffff),
        Err(Touch { address: 0x1006 })
    );
    assert_eq!(rt; memory.load(0x1004, Width::W16), Ok(0x0605));
    assert_eq!(rt;
        memory.store(0x1003, Width::W16, 0xffff),
        Err(Touch { address: 0x1003 })
    );
    assert_eq!(rt; memory.store(0x1004, Width::W16, 0x1_0807), Ok(()));
    assert_eq!(rt; memory.load(0x1004, Width::W16), Ok(0x0807));
    Ok(())
}

#[test]
fn closed_bytes_come_back_as_zeros(rt: HostRuntime) -> Result<(), Fail> {
    let mut memory = two_regions(rt.alloc())?;
    assert_eq!(rt; memory.can_read(0x1000, 6), true);
    assert_eq!(rt; memory.can_write(0x1004, 3), false);
    memory.set_open(1, 1);
    assert_eq!(rt; memory.can_write(0x1004, 2), false);
    memory.set_open(1, 3);
    assert_eq!(rt; memory.can_write(0x1004, 3), true);
    assert_eq!(rt; memory.load(0x1004, Width::W16), Ok(5));
    Ok(())
}

#[test]
fn code_is_fetched_up_to_its_end(rt: HostRuntime) -> Result<(), Fail> {
    let memory = two_regions(rt.alloc())?;
    let mut out = [0; 15];
    assert_eq!(rt; memory.fetch(0x1001, &mut out), 3);
    assert_eq!(rt; &out[..3], [2, 3, 4].as_slice());
    assert_eq!(rt; memory.fetch(0x1004, &mut out), 0);
    Ok(())
}

// What no clause says: that the calls that take memory succeed.

use rz_aset::{AddrSet, EdgeSet};

#[test]
fn addresses_are_sorted(rt: HostRuntime) -> Result<(), std::test::Fail> {
    let mut set = AddrSet::new(rt.alloc());
    set.insert(7)?;
    set.insert_all(&[5, 7, u64::MAX, 5])?;
    assert_eq!(rt;
        set.sorted(rt.alloc())?.as_slice(),
        [5, 7, u64::MAX].as_slice()
    );
    Ok(())
}

#[test]
fn edges_are_sorted(rt: HostRuntime) -> Result<(), std::test::Fail> {
    let mut set = EdgeSet::new(rt.alloc());
    for edge in [(2, 1), (1, 9), (2, 1), (2, 0)] {
        set.insert(edge)?;
    }
    assert_eq!(rt;
        set.sorted(rt.alloc())?.as_slice(),
        [(1, 9), (2, 0), (2, 1)].as_slice()
    );
    Ok(())
}

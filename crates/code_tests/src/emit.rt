//! Worked bytes, counted by hand (Intel SDM, volume 2, "JMP" and "Jcc").

use crate::two_jumps::emitted;
use rz_table::Profile1;
use std::test::Fail;

#[test]
fn jumps_to_each_other_and_to_a_stub(rt: HostRuntime) -> Result<(), Fail> {
    let bytes = emitted::<Profile1>(rt.alloc())?;
    let wanted: [u8; 16] = [
        0xeb, 0, 0x74, 0xfc, 0xe9, 0x1f, 0, 0, 0, 0xcc, 0xcc, 0xcc, 0xcc, 0xcc, 0xcc, 0xcc,
    ];
    assert_eq!(rt; bytes.as_slice(), wanted.as_slice());
    Ok(())
}

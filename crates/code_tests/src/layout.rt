//! A worked layout: the jumps between the fragments are short, the jump to a stub is near.

use crate::two_jumps::laid_out;
use rz_isa::Form;
use rz_layout::plan::Layout;
use rz_table::Profile1;
use std::test::Fail;

#[test]
fn jumps_to_each_other_are_short(rt: HostRuntime) -> Result<(), Fail> {
    let laid = laid_out::<Profile1>(rt.alloc())?;
    assert_eq!(rt;
        laid.places.as_slice(),
        [0x10000, 0x10002, 0x10004].as_slice()
    );
    assert!(rt; is_short(&laid, 0));
    assert!(rt; is_short(&laid, 1));
    assert!(rt; !is_short(&laid, 2));
    Ok(())
}

// Whether the item of a number is short.
fn is_short(laid: &Layout, k: usize) -> bool {
    matches!(laid.forms.as_slice().get(k), Some(Form::Short))
}

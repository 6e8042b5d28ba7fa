//! A fragment, where memory is found.

use rz_aset::Record;
use rz_frag::fragment;
use rz_isa::{Insn, Item, Label};
use rz_table::Profile1;
use std::process::Abort;
use std::test::Fail;

// The push of the next address, and a jump to the stub, since nothing is kept.
#[test]
fn a_call_that_is_not_kept(rt: HostRuntime) -> Result<(), Fail> {
    let kept = Record::new(rt.alloc());
    let insn = Insn::Call { target: 0x401000 };
    let made = fragment::<Profile1>(rt.alloc(), 0x401020, &insn, 5, &kept)?;
    assert_eq!(rt; made.items.as_slice().len(), 2);
    assert!(rt;
        matches!(
            made.items.as_slice().last(),
            Some(Item::Jump {
                cond: None,
                to: Label::Stub(0x401020)
            })
        )
    );
    Ok(())
}

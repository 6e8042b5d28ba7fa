//! A site, where memory is found.

use rz_isa::{Insn, Item, Label};
use rz_num::Words;
use rz_sites::site;
use rz_table::Profile1;
use std::process::Abort;
use std::test::Fail;

// Three items before the check, five for each target, and two to the stub.
#[test]
fn a_return_to_two_targets(rt: HostRuntime) -> Result<(), Fail> {
    let targets = Words::from_slice(rt.alloc(), &[0x401005, 0x401010])?;
    let insn = Insn::Ret { pop: 8 };
    let items = site::<Profile1>(rt.alloc(), 0x401020, &insn, 3, &targets, 0x3fd000)?;
    assert_eq!(rt; items.as_slice().len(), 15);
    assert!(rt;
        matches!(
            items.as_slice().last(),
            Some(Item::Jump {
                cond: None,
                to: Label::Stub(0x401020)
            })
        )
    );
    Ok(())
}

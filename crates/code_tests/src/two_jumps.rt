//! Two worked fragments: how they are laid out, and their bytes, over any table.

ghost use Rattle.std.specs.Prelude.{◌≡◌, IfOk};
ghost use Rattle.code_tests.specs.Calls.TwoJumps.{two_jumps as two_jumps_of, two_short as two_short_of};

use rz_emit::emit;
use rz_flags::Cond;
use rz_isa::laws::emits;
use rz_isa::{Form, Fragment, FragmentList, Fragments, InsnTable, Item, Items, Label};
use rz_layout::layout::layout;
use rz_layout::plan::{Forms, Layout};
use rz_num::{Bytes, OutOfMemory, Pairs, Words};
use std::alloc::Global;

// Two fragments that jump to each other, the second where ZF is set, and else to its stub.
fn two_jumps(alloc: Global) -> Result<Fragments, OutOfMemory>
    ensures { IfOk result (λ frags. frags ≡ two_jumps_of) }
{
    let there = Items::from_slice(
        alloc,
        &[Item::Jump {
            cond: None,
            to: Label::Place(2),
        }],
    )?;
    let back = Items::from_slice(
        alloc,
        &[
            Item::Jump {
                cond: Some(Cond::E),
                to: Label::Place(1),
            },
            Item::Jump {
                cond: None,
                to: Label::Stub(2),
            },
        ],
    )?;
    let mut list = FragmentList::new(alloc);
    list.push(Fragment {
        at: 1,
        items: there,
    })?;
    list.push(Fragment { at: 2, items: back })?;
    Ok(Fragments {
        list,
        routine: Items::new(alloc),
        tables: Pairs::new(alloc),
        stubs: Pairs::from_slice(alloc, &[(1, 0x10010), (2, 0x10028)])?,
    })
}

// Their layout from 0x10000 on, the jumps to each other short.
fn two_short(alloc: Global) -> Result<Layout, OutOfMemory>
    ensures { IfOk result (λ laid. laid ≡ two_short_of) }
{
    Ok(Layout {
        base: 0x10000,
        stubs: 0x10010,
        places: Words::from_slice(alloc, &[0x10000, 0x10002, 0x10004])?,
        forms: Forms::from_vec(Vec::from_slice(alloc, &[Form::Short, Form::Short, Form::Near])?),
    })
}

/// The bytes of two fragments that jump to each other.
pub fn emitted<T: InsnTable>(alloc: Global) -> Result<Bytes, OutOfMemory> {
    emits::<T>();
    let frags = two_jumps(alloc)?;
    let laid = two_short(alloc)?;
    emit::<T>(alloc, &frags, &laid)
}

/// The layout of two fragments that jump to each other, from 0x10000 on.
pub fn laid_out<T: InsnTable>(alloc: Global) -> Result<Layout, OutOfMemory> {
    emits::<T>();
    let frags = two_jumps(alloc)?;
    layout::<T>(alloc, &frags, 0x10000, 0x11000)
}

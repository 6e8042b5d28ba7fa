//! The items of each kept instruction that is a site.

ghost use Rattle.std.specs.Prelude.{◌≡◌, ◌+◌, ◌^◌, ◌<◌, IfOk};
ghost use Rattle.rz_isa.specs.Decoded.{decoded};
ghost use Rattle.rz_machine.specs.Sequence.{site_items, load_value as load_value_of};
ghost use Rattle.rz_sites.specs.Site.{IsSite, SimulatesSite, IsSizedSite};

use crate::dispatch::push_dispatch;
use crate::laws::{sites_are_sized, sites_simulate};
use crate::moves::{RSP, add_to, load, load_at, rcx, save_at};
use rz_isa::{Insn, InsnTable, Item, Items, Operand};
use rz_num::{OutOfMemory, Words};
use std::alloc::Global;

/// The items of a return, an indirect call or an indirect jump at the address `at`, which has `len` bytes: they go to
/// where it leads, if that is one of the targets, and else to the stub of `at`; the whole sequence, with its last jump.
/// An indirect call pushes the original's next address. Up to 32 targets are tried in turn; more are looked up by the
/// lookup routine in the table of `at`. They take one to 64 steps and 16 more for each binary digit of the number of
/// targets, and at most 128 bytes and 48 more for each target. The next address and the targets are below 2^31, and the
/// targets are fewer than 2^28; `scratch` is the address of the scratch page, whose first three words are used.
/// It refuses for want of memory alone.
pub fn site<T: InsnTable>(
    alloc: Global,
    at: u64,
    insn: &Insn,
    len: u8,
    targets: &Words,
    scratch: u64,
) -> Result<Items, OutOfMemory>
    requires site { IsSite scratch targets.now (at + len) insn.now }
    ensures value { IfOk result (λ items. items ≡ site_items scratch targets.now at (at + len) insn.now) }
    ensures simulates { IfOk result (λ items.
        SimulatesSite (decoded T.rows) scratch targets.now at (at + len) insn.now items) }
    ensures sized { IfOk result (λ items. IsSizedSite T.rows targets.now insn.now items) }
{
    sites_simulate::<T>();
    sites_are_sized::<T>();
    let mut items = load_value(alloc, scratch, at + len as u64, insn)?;
    push_dispatch(&mut items, scratch, at, targets)?;
    Ok(items)
}

// The items that bring the value into RCX that an instruction before `next` goes to.
fn load_value(alloc: Global, scratch: u64, next: u64, insn: &Insn) -> Result<Items, OutOfMemory>
    requires { scratch + 16 < 2 ^ 31 }
    ensures { IfOk result (λ items. items ≡ load_value_of scratch next insn.now) }
{
    match insn {
        Insn::Ret { pop: 0 } => {
            Items::from_slice(
                alloc,
                &[save_at(scratch), Item::Whole(Insn::Pop { dst: rcx() })],
            )
        }
        Insn::Ret { pop } => Items::from_slice(
            alloc,
            &[
                save_at(scratch),
                Item::Whole(Insn::Pop { dst: rcx() }),
                add_to(RSP, *pop as i32),
            ],
        ),
        Insn::JmpInd { src } => Items::from_slice(alloc, &[save_at(scratch), load(*src)]),
        Insn::CallInd { src } => Items::from_slice(
            alloc,
            &[
                save_at(scratch),
                load(*src),
                save_at(scratch + 8),
                load_at(scratch),
                Item::Whole(Insn::Push {
                    src: Operand::Imm(next),
                }),
                load_at(scratch + 8),
            ],
        ),
        _ => Ok(Items::new(alloc)),
    }
}

//! The items of each kept instruction that is no site.

ghost use Rattle.std.specs.Prelude.{◌≡◌, ℕ, false, ◌+◌, ◌^◌, ◌<◌, List, IfOk};
ghost use Rattle.rz_isa.specs.Decoded.{decoded};
ghost use Rattle.rz_isa.specs.Insn.{kind_of};
ghost use Rattle.rz_isa.specs.Nodes.{is_site};
ghost use Rattle.rz_isa.specs.Sizes.{IsSized};
ghost use Rattle.rz_isa.specs.Spells.{Spells};
ghost use Rattle.rz_isa.specs.Targets.{NamesLow};
ghost use Rattle.rz_machine.specs.Kept.{has_edge, targets_of};
ghost use Rattle.rz_machine.specs.Simulates.{Simulates};
ghost use Rattle.rz_machine.specs.Sequence.{fragment_items, jump_to as jump_to_of, mov_number as mov_number_of, push_number as push_number_of, to_label};

use crate::laws::{fragments_are_sized, fragments_simulate};
use rz_aset::{EdgeSet, Record};
use rz_isa::{Fragment, Insn, InsnTable, Item, Items, Label, Operand, Place, Reg};
use rz_machine::way::{Transfer, Way, find_way};
use rz_num::{OutOfMemory, Width};
use std::alloc::Global;

// RCX.
const RCX: u8 = 1;

/// The fragment of the instruction at the address `at`, which has `len` bytes, for what is kept: the whole sequence, with
/// its last jump. A direct call pushes the original's next address; after a system call RCX is that address. The
/// instruction is no return and no call or jump by an operand, and the next address is below 2^31.
/// It refuses for want of memory alone.
pub fn fragment<T: InsnTable>(
    alloc: Global,
    at: u64,
    insn: &Insn,
    len: u8,
    kept: &Record,
) -> Result<Fragment, OutOfMemory>
    requires site { is_site (kind_of insn.now) ≡ false }
    requires low { at + len < 2 ^ 31 }
    ensures at { IfOk result (λ f. f.at ≡ at) }
    ensures items { IfOk result (λ f.
        f.items ≡ fragment_items (has_edge kept.now.edges at) at (at + len) insn.now) }
    ensures simulates { IfOk result (λ f. (scratch : ℕ)
        → Simulates (decoded T.rows) scratch 64 (targets_of kept.now.edges at) at (at + len) insn.now f.items) }
    ensures sized { IfOk result (λ f. (bytes : List ℕ) (b : ℕ) → Spells T.rows bytes b insn.now
        → NamesLow insn.now → IsSized T.rows f.items 32) }
{
    fragments_simulate::<T>();
    fragments_are_sized::<T>();
    let items = sequence(alloc, at, at + len as u64, insn, &kept.edges)?;
    Ok(Fragment { at, items })
}

// The items for the instruction at `at`, before `next`.
fn sequence(
    alloc: Global,
    at: u64,
    next: u64,
    insn: &Insn,
    edges: &EdgeSet,
) -> Result<Items, OutOfMemory>
    ensures { IfOk result (λ items. items ≡ fragment_items (has_edge edges.now at) at next insn.now) }
{
    let onward = jump_to(edges, at, next);
    match find_way(insn) {
        Way::Onward => Items::from_slice(alloc, &[Item::Whole(*insn), onward]),
        Way::Jumps { target } => Items::from_slice(alloc, &[jump_to(edges, at, target)]),
        Way::Branches { cond, target } => {
            let branch = Item::Jump {
                cond: Some(cond),
                to: label(edges, at, target),
            };
            Items::from_slice(alloc, &[branch, onward])
        }
        Way::BranchesOnRcx { target } => {
            let over = Item::Jrcxz { to: Label::Item(2) };
            Items::from_slice(alloc, &[over, onward, jump_to(edges, at, target)])
        }
        Way::Transfers {
            how: Transfer::Call { target },
        } => Items::from_slice(
            alloc,
            &[Item::Whole(push_number(next)), jump_to(edges, at, target)],
        ),
        Way::Transfers { .. } => Ok(Items::new(alloc)),
        Way::Calls => Items::from_slice(
            alloc,
            &[
                Item::Whole(*insn),
                Item::Whole(mov_number(RCX, next)),
                onward,
            ],
        ),
        Way::Halts { .. } => Items::from_slice(alloc, &[Item::Whole(*insn)]),
    }
}

// Where a transfer from `from` to `to` leads: to the fragment where the edge is kept, else to the stub of its source.
fn label(edges: &EdgeSet, from: u64, to: u64) -> Label
    ensures { result ≡ to_label (has_edge edges.now from) from to }
{
    if edges.contains((from, to)) {
        Label::Place(to)
    } else {
        Label::Stub(from)
    }
}

// A jump that always goes there.
fn jump_to(edges: &EdgeSet, from: u64, to: u64) -> Item
    ensures { result ≡ jump_to_of (has_edge edges.now from) from to }
{
    Item::Jump {
        cond: None,
        to: label(edges, from, to),
    }
}

// MOV of a number to a 32-bit register.
fn mov_number(register: u8, number: u64) -> Insn
    ensures { result ≡ mov_number_of register number }
{
    Insn::Mov {
        w: Width::W32,
        dst: Place::Reg(Reg::R(register)),
        src: Operand::Imm(number),
    }
}

// PUSH of a number.
fn push_number(number: u64) -> Insn
    ensures { result ≡ push_number_of number }
{
    Insn::Push {
        src: Operand::Imm(number),
    }
}

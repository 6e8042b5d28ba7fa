// Items that move RCX, and the jump.

ghost use Rattle.std.specs.Prelude.{◌≡◌, ◌^◌, ◌<◌};
ghost use Rattle.rz_isa.specs.declared.instruction.Place.TheVariants as places;
ghost use Rattle.rz_isa.specs.Emitted.{register};
ghost use Rattle.rz_isa.specs.Items.{absolute as absolute_at};
ghost use Rattle.rz_machine.specs.Sequence.{save_at as saved, load as loaded, load_at as loaded_at, add_to as added_to, jump as jump_of};

use rz_isa::{Insn, Item, Label, Mem, Operand, Place, Reg};
use rz_num::Width;

/// The number of RCX.
pub const RCX: u8 = 1;

/// The number of RSP.
pub const RSP: u8 = 4;

/// RCX as a place.
pub fn rcx() -> Place
    ensures { result ≡ register 1 }
{
    Place::Reg(Reg::R(RCX))
}

// The memory at an absolute address.
fn absolute(at: u64) -> Place
    requires { at < 2 ^ 31 }
    ensures { result ≡ places.Mem (absolute_at at) }
{
    Place::Mem(Mem {
        base: None,
        index: None,
        scale: 1,
        disp: at as i32,
    })
}

/// The move of RCX to the word at an address below 2^31.
pub fn save_at(at: u64) -> Item
    requires { at < 2 ^ 31 }
    ensures { result ≡ saved at }
{
    Item::Whole(Insn::Mov {
        w: Width::W64,
        dst: absolute(at),
        src: Operand::Place(rcx()),
    })
}

/// The move of an operand to RCX.
pub fn load(src: Place) -> Item
    ensures { result ≡ loaded src }
{
    Item::Whole(Insn::Mov {
        w: Width::W64,
        dst: rcx(),
        src: Operand::Place(src),
    })
}

/// The move of the word at an address below 2^31 to RCX.
pub fn load_at(at: u64) -> Item
    requires { at < 2 ^ 31 }
    ensures { result ≡ loaded_at at }
{
    load(absolute(at))
}

/// The addition of a number to a register, by LEA.
pub fn add_to(register: u8, number: i32) -> Item
    ensures { result ≡ added_to register number }
{
    Item::Whole(Insn::Lea {
        w: Width::W64,
        dst: register,
        src: Place::Mem(Mem {
            base: Some(register),
            index: None,
            scale: 1,
            disp: number,
        }),
    })
}

/// A jump that always goes to a label.
pub fn jump(to: Label) -> Item
    ensures { result ≡ jump_of to }
{
    Item::Jump { cond: None, to }
}

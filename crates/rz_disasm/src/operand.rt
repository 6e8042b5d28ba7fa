// The texts of operands.

ghost use Rattle.std.specs.Prelude.{◌≡◌, Some};
ghost use Rattle.rz_disasm.specs.Operands.{displacement, memory_text, scaled, size_word as word_for_size};

use crate::register::register_name;
use rz_isa::{Mem, Place, Reg};
use rz_num::Width;
use std::fmt;

/// What is printed of an operand.
#[derive(Clone, Copy)]
pub enum Shown {
    /// A register, or what stands in memory, at a width.
    Place(Width, Place),
    /// An address that isn't read, or a register at a width.
    Address(Width, Place),
    Number(u64),
    Cl,
}

impl fmt::Display for Shown {
    ghost use Rattle.rz_disasm.specs.Calls.Shown.{shown_text};

    ghost output = { λ x. Some (shown_text x) };

    #[tactic(auto, unfolding(crate::specs::Operands::place_text, crate::specs::Operands::address_text))]
    fn fmt<W: fmt::Write>(&self, f: &mut fmt::Formatter<W>) -> fmt::Result {
        match *self {
            Shown::Place(w, Place::Mem(mem)) => {
                let size = size_word(w);
                let memory = Memory(mem);
                write!(f, "{size} {memory}")
            }
            Shown::Address(_, Place::Mem(mem)) => {
                let memory = Memory(mem);
                write!(f, "{memory}")
            }
            Shown::Place(w, Place::Reg(reg)) | Shown::Address(w, Place::Reg(reg)) => {
                let name = register_name(w, reg);
                write!(f, "{name}")
            }
            Shown::Place(_, Place::At(address)) | Shown::Address(_, Place::At(address)) => {
                write!(f, "[rip 0x{address:x}]")
            }
            Shown::Number(number) => write!(f, "0x{number:x}"),
            Shown::Cl => write!(f, "cl"),
        }
    }
}

/// The size of what stands in memory.
fn size_word(w: Width) -> &'static str
    ensures { result.now ≡ word_for_size w }
{
    match w {
        Width::W8 => "byte",
        Width::W16 => "word",
        Width::W32 => "dword",
        Width::W64 => "qword",
    }
}

// Memory by registers, in brackets.
#[derive(Clone, Copy)]
struct Memory(Mem);

impl fmt::Display for Memory {
    ghost output = { λ m. Some (memory_text m.0) };

    #[tactic(auto, unfolding(crate::specs::Operands::memory_text))]
    fn fmt<W: fmt::Write>(&self, f: &mut fmt::Formatter<W>) -> fmt::Result {
        let Mem {
            base,
            index,
            scale,
            disp,
        } = self.0;
        let displacement = Displacement(disp);
        match (base, index) {
            (None, None) => {
                let address = (disp as i64).cast_unsigned();
                write!(f, "[0x{address:x}]")
            }
            (None, Some(index)) => {
                let scaled = Scaled { index, scale };
                write!(f, "[{scaled}{displacement}]")
            }
            (Some(base), None) => {
                let base = register_name(Width::W64, Reg::R(base));
                write!(f, "[{base}{displacement}]")
            }
            (Some(base), Some(index)) => {
                let base = register_name(Width::W64, Reg::R(base));
                let scaled = Scaled { index, scale };
                write!(f, "[{base}+{scaled}{displacement}]")
            }
        }
    }
}

// An index and its scale.
#[derive(Clone, Copy)]
struct Scaled {
    index: u8,
    scale: u8,
}

impl fmt::Display for Scaled {
    ghost output = { λ s. Some (scaled s.index s.scale) };

    fn fmt<W: fmt::Write>(&self, f: &mut fmt::Formatter<W>) -> fmt::Result {
        let index = register_name(Width::W64, Reg::R(self.index));
        let scale = self.scale;
        write!(f, "{index}*{scale}")
    }
}

// A displacement behind a base or an index, with its sign; none where it is 0.
#[derive(Clone, Copy)]
struct Displacement(i32);

impl fmt::Display for Displacement {
    ghost output = { λ d. Some (displacement d.0) };

    fn fmt<W: fmt::Write>(&self, f: &mut fmt::Formatter<W>) -> fmt::Result {
        let size = self.0.unsigned_abs();
        if self.0 == 0 {
            Ok(())
        } else if self.0 < 0 {
            write!(f, "-0x{size:x}")
        } else {
            write!(f, "+0x{size:x}")
        }
    }
}

// The names of registers.

ghost use Rattle.std.specs.Prelude.{◌≡◌};
ghost use Rattle.rz_disasm.specs.Registers.{number_name as name_of_number, second_byte_name as name_of_second_byte, register_name as name_of_register};

use rz_isa::Reg;
use rz_num::Width;

/// The name of a register at a width (Intel SDM, volume 1, section 3.4.1.1). A number that no register has is named by
/// the empty text.
pub fn register_name(w: Width, reg: Reg) -> &'static str
    ensures { result.now ≡ name_of_register w reg }
{
    match reg {
        Reg::R(number) => number_name(w, number),
        Reg::High(number) => second_byte_name(number),
    }
}

/// The name of the register of a number at a width.
#[tactic(auto, unfolding(crate::specs::Registers::number_name))]
pub fn number_name(w: Width, number: u8) -> &'static str
    ensures { result.now ≡ name_of_number w number }
{
    match w {
        Width::W8 => byte_name(number),
        Width::W16 => word_name(number),
        Width::W32 => dword_name(number),
        Width::W64 => qword_name(number),
    }
}

#[tactic(auto, unfolding(crate::specs::Registers::number_name))]
fn byte_name(number: u8) -> &'static str
    ensures { result.now ≡ name_of_number Width.W8 number }
{
    match number {
        0 => "al",
        1 => "cl",
        2 => "dl",
        3 => "bl",
        4 => "spl",
        5 => "bpl",
        6 => "sil",
        7 => "dil",
        8 => "r8b",
        9 => "r9b",
        10 => "r10b",
        11 => "r11b",
        12 => "r12b",
        13 => "r13b",
        14 => "r14b",
        15 => "r15b",
        _ => "",
    }
}

#[tactic(auto, unfolding(crate::specs::Registers::number_name))]
fn word_name(number: u8) -> &'static str
    ensures { result.now ≡ name_of_number Width.W16 number }
{
    match number {
        0 => "ax",
        1 => "cx",
        2 => "dx",
        3 => "bx",
        4 => "sp",
        5 => "bp",
        6 => "si",
        7 => "di",
        8 => "r8w",
        9 => "r9w",
        10 => "r10w",
        11 => "r11w",
        12 => "r12w",
        13 => "r13w",
        14 => "r14w",
        15 => "r15w",
        _ => "",
    }
}

#[tactic(auto, unfolding(crate::specs::Registers::number_name))]
fn dword_name(number: u8) -> &'static str
    ensures { result.now ≡ name_of_number Width.W32 number }
{
    match number {
        0 => "eax",
        1 => "ecx",
        2 => "edx",
        3 => "ebx",
        4 => "esp",
        5 => "ebp",
        6 => "esi",
        7 => "edi",
        8 => "r8d",
        9 => "r9d",
        10 => "r10d",
        11 => "r11d",
        12 => "r12d",
        13 => "r13d",
        14 => "r14d",
        15 => "r15d",
        _ => "",
    }
}

#[tactic(auto, unfolding(crate::specs::Registers::number_name))]
fn qword_name(number: u8) -> &'static str
    ensures { result.now ≡ name_of_number Width.W64 number }
{
    match number {
        0 => "rax",
        1 => "rcx",
        2 => "rdx",
        3 => "rbx",
        4 => "rsp",
        5 => "rbp",
        6 => "rsi",
        7 => "rdi",
        8 => "r8",
        9 => "r9",
        10 => "r10",
        11 => "r11",
        12 => "r12",
        13 => "r13",
        14 => "r14",
        15 => "r15",
        _ => "",
    }
}

#[tactic(auto, unfolding(crate::specs::Registers::second_byte_name))]
fn second_byte_name(number: u8) -> &'static str
    ensures { result.now ≡ name_of_second_byte number }
{
    match number {
        0 => "ah",
        1 => "ch",
        2 => "dh",
        3 => "bh",
        _ => "",
    }
}

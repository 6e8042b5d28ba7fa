ghost use Rattle.std.specs.Prelude.{◌≡◌, ◌<◌, ◌≤◌, ◌/◌, ◌^◌, length, IsTrue};
ghost use Rattle.rz_isa.specs.Fields.{reg_of as reg_by, index_of as index_by, sib_mem as sib_mem_of, base_mem as base_mem_of, place_of as place_by};
ghost use Rattle.rz_decode.specs.Calls.Views.{is_whole_rm};

use crate::fit::second;
use crate::number::{extended, signed};
use crate::rex::{bit_b, bit_x};
use rz_isa::{Mem, Place, Reg};
use rz_num::Width;

// Registers and memory operands (Intel SDM, volume 2, sections 2.1.5, 2.2.1.2 and 2.2.1.6).

/// The register of a number: without REX the byte registers 4 to 7 are AH, CH, DH and BH.
pub fn reg_of(w: Width, rex: Option<u8>, n: u8) -> Reg
    ensures { result ≡ reg_by w rex n }
{
    match (w, rex) {
        (Width::W8, None) if n >= 4 => Reg::High(n - 4),
        _ => Reg::R(n),
    }
}

fn index_of(n: u8) -> Option<u8>
    ensures { result ≡ index_by n }
{
    if n == 4 { None } else { Some(n) }
}

fn scale_of(sib: u8) -> u8
    ensures { result ≡ 2 ^ (sib / 64) }
{
    match sib / 64 {
        0 => 1,
        1 => 2,
        2 => 4,
        _ => 8,
    }
}

fn sib_mem(mode: u8, sib: u8, rex: Option<u8>, disp: &[u8]) -> Mem
    requires { length disp.now ≤ 4 }
    ensures { result ≡ sib_mem_of mode sib rex disp.now }
{
    let index = index_of(sib / 8 % 8 + 8 * bit_x(rex));
    Mem {
        base: if mode == 0 && sib % 8 == 5 {
            None
        } else {
            Some(sib % 8 + 8 * bit_b(rex))
        },
        index,
        scale: if index.is_some() { scale_of(sib) } else { 1 },
        disp: signed(disp),
    }
}

fn base_mem(low: u8, rex: Option<u8>, disp: &[u8]) -> Mem
    requires low { low < 8 }
    requires disp { length disp.now ≤ 4 }
    ensures { result ≡ base_mem_of low rex disp.now }
{
    Mem {
        base: Some(low + 8 * bit_b(rex)),
        index: None,
        scale: 1,
        disp: signed(disp),
    }
}

/// What ModRM, SIB and displacement name at a width, the next instruction's address given.
pub fn place_of(w: Width, rex: Option<u8>, next: u64, rm: &[u8]) -> Place
    requires { IsTrue (is_whole_rm rm.now) }
    ensures { result ≡ place_by w rex next rm.now }
{
    match rm {
        [] => Place::Reg(Reg::R(0)),
        [m, rest @ ..] => {
            if m / 64 == 3 {
                Place::Reg(reg_of(w, rex, m % 8 + 8 * bit_b(rex)))
            } else if m % 8 == 4 {
                match rest {
                    [] => Place::Mem(sib_mem(m / 64, second(rm), rex, rest)),
                    [_, disp @ ..] => Place::Mem(sib_mem(m / 64, second(rm), rex, disp)),
                }
            } else if m / 64 == 0 && m % 8 == 5 {
                Place::At(next.wrapping_add(extended(rest)))
            } else {
                Place::Mem(base_mem(m % 8, rex, rest))
            }
        }
    }
}

//! The conditions after CMP, and rows of edge operands at each width. The values and flags of the rows were worked out
//! bit by bit from the operation sections of the Intel SDM, volume 2 (carries from bit to bit, shifts by one place at a
//! time, restoring division), apart from this code; an x86-64 processor gave the same wherever the SDM defines them. The
//! flags that it leaves open are razor's own.

mod arithmetic_rows;
mod bit_rows;
mod double_shift_rows;
mod product_rows;
mod shift_rows;

use arithmetic_rows::{ARITHS, CARRY_ARITHS, UNARIES};
use bit_rows::{BITS, SCANS};
use double_shift_rows::DOUBLE_SHIFTS;
use product_rows::{DIVISIONS, PRODUCTS};
use rz_alu::{arith, bit_test, div, double_shift, mul, scan, shift, unary};
use rz_flags::{ArithOp, Cond, Flags, ScanOp, ShiftOp, UnaryOp, holds, to_word};
use rz_num::Width::{self, W8, W16, W32, W64};
use shift_rows::{CARRY_ROTATES, SHIFTS};

const CF: u64 = 1;

const PF: u64 = 1 << 2;

const AF: u64 = 1 << 4;

const ZF: u64 = 1 << 6;

const SF: u64 = 1 << 7;

const OF: u64 = 1 << 11;

const STATUS: u64 = CF | PF | AF | ZF | SF | OF;

/// What a scan's destination holds before.
const OLD: u64 = 0x1122_3344_5566_7788;

const CLEAR: Flags = Flags {
    cf: false,
    pf: false,
    af: false,
    zf: false,
    sf: false,
    df: false,
    of: false,
};

const SET: Flags = Flags {
    cf: true,
    pf: true,
    af: true,
    zf: true,
    sf: true,
    df: true,
    of: true,
};

// Whether flags are those before with some of them written.
fn are_written(flags: Flags, before: Flags, written: u64, set: u64) -> bool {
    to_word(flags) == (to_word(before) & !written | set)
}

// Whether exactly these conditions hold after CMP of two bytes.
fn hold_exactly(a: u64, b: u64, held: [Cond; 8]) -> bool {
    let (_, flags) = arith(ArithOp::Cmp, Width::W8, a, b, CLEAR);
    let mut right = true;
    for number in 0..16u8 {
        let cond = Cond::from_number(number);
        right = right && holds(cond, flags) == held.contains(&cond);
    }
    right
}

// Above and below speak of unsigned numbers, greater and less of signed ones (volume 2, "Jcc").
#[test]
fn conditions_after_cmp(rt: HostRuntime) {
    use Cond::{A, AE, B, BE, E, G, GE, L, LE, NE, NO, NP, NS, O, P, S};
    assert!(rt; hold_exactly(5, 5, [NO, AE, E, BE, NS, P, GE, LE]));
    assert!(rt; hold_exactly(2, 1, [NO, AE, NE, A, NS, NP, GE, G]));
    assert!(rt; hold_exactly(1, 2, [NO, B, NE, BE, S, P, L, LE]));
    // -128 is less than 1, and 128 above it.
    assert!(rt; hold_exactly(0x80, 1, [O, AE, NE, A, NS, NP, L, LE]));
    // 127 is greater than -1, and below 255.
    assert!(rt; hold_exactly(0x7f, 0xff, [O, B, NE, BE, S, NP, GE, G]));
}

#[test]
fn two_operands(rt: HostRuntime) {
    for (op, w, a, b, value, set) in ARITHS.iter().copied() {
        for before in [CLEAR, SET] {
            let (result, flags) = arith(op, w, a, b, before);
            assert_eq!(rt; result, value);
            assert!(rt; are_written(flags, before, STATUS, set));
        }
    }
}

#[test]
fn two_operands_and_a_carry(rt: HostRuntime) {
    for (op, w, a, b, carry, value, set) in CARRY_ARITHS.iter().copied() {
        for others in [CLEAR, SET] {
            let before = Flags {
                cf: carry,
                ..others
            };
            let (result, flags) = arith(op, w, a, b, before);
            assert_eq!(rt; result, value);
            assert!(rt; are_written(flags, before, STATUS, set));
        }
    }
}

#[test]
fn one_operand(rt: HostRuntime) {
    for (op, w, a, value, set) in UNARIES.iter().copied() {
        let written = match op {
            UnaryOp::Inc | UnaryOp::Dec => STATUS - CF,
            UnaryOp::Not => 0,
            UnaryOp::Neg => STATUS,
        };
        for before in [CLEAR, SET] {
            let (result, flags) = unary(op, w, a, before);
            assert_eq!(rt; result, value);
            assert!(rt; are_written(flags, before, written, set));
        }
    }
}

#[test]
fn shifts_and_rotates(rt: HostRuntime) {
    for (op, w, a, count, value, set) in SHIFTS.iter().copied() {
        let written = match op {
            ShiftOp::Rol | ShiftOp::Ror | ShiftOp::Rcl | ShiftOp::Rcr => CF | OF,
            ShiftOp::Shl | ShiftOp::Shr | ShiftOp::Sar => STATUS,
        };
        for before in [CLEAR, SET] {
            let (result, flags) = shift(op, w, a, count, before);
            assert_eq!(rt; result, value);
            assert!(rt; are_written(flags, before, written, set));
        }
    }
}

#[test]
fn rotates_with_carry(rt: HostRuntime) {
    for (op, w, a, count, carry, value, set) in CARRY_ROTATES.iter().copied() {
        for others in [CLEAR, SET] {
            let before = Flags {
                cf: carry,
                ..others
            };
            let (result, flags) = shift(op, w, a, count, before);
            assert_eq!(rt; result, value);
            assert!(rt; are_written(flags, before, CF | OF, set));
        }
    }
}

// Counts that are the width plus 1, or a multiple of it.
#[test]
fn whole_turns_with_carry(rt: HostRuntime) {
    use ShiftOp::{Rcl, Rcr};
    for (w, count, top) in [
        (W8, 9, 0x80),
        (W8, 18, 0x80),
        (W8, 27, 0x80),
        (W16, 17, 0x8000),
    ] {
        for a in [1, top] {
            for before in [CLEAR, SET] {
                assert!(rt; shift(Rcl, w, a, count, before) == (a, before));
                assert!(rt; shift(Rcr, w, a, count, before) == (a, before));
            }
        }
    }
}

#[test]
fn counts_that_leave_all(rt: HostRuntime) {
    use ShiftOp::{Rcl, Rcr, Rol, Ror, Sar, Shl, Shr};
    for (w, count, top) in [
        (W8, 0, 0x80),
        (W8, 32, 0x80),
        (W16, 0, 0x8000),
        (W16, 64, 0x8000),
        (W32, 0, 0x8000_0000),
        (W32, 32, 0x8000_0000),
        (W64, 0, 1 << 63),
        (W64, 64, 1 << 63),
    ] {
        for a in [0, 1, top, w.greatest()] {
            for before in [CLEAR, SET] {
                for op in [Rol, Ror, Rcl, Rcr, Shl, Shr, Sar] {
                    assert!(rt; shift(op, w, a, count, before) == (a, before));
                }
            }
        }
    }
}

#[test]
fn counts_that_leave_a_pair(rt: HostRuntime) {
    for (w, count, top) in [
        (W8, 0, 0x80),
        (W8, 8, 0x80),
        (W16, 0, 0x8000),
        (W16, 16, 0x8000),
        (W32, 0, 0x8000_0000),
        (W32, 32, 0x8000_0000),
        (W64, 0, 1 << 63),
        (W64, 64, 1 << 63),
    ] {
        for a in [0, 1, top, w.greatest()] {
            for before in [CLEAR, SET] {
                assert!(rt; double_shift(true, w, a, !a, count, before) == (a, before));
                assert!(rt; double_shift(false, w, a, !a, count, before) == (a, before));
            }
        }
    }
}

#[test]
fn double_shifts(rt: HostRuntime) {
    for (left, w, a, b, count, value, set) in DOUBLE_SHIFTS.iter().copied() {
        for before in [CLEAR, SET] {
            let (result, flags) = double_shift(left, w, a, b, count, before);
            assert_eq!(rt; result, value);
            assert!(rt; are_written(flags, before, STATUS, set));
        }
    }
}

#[test]
fn products(rt: HostRuntime) {
    for (w, signed, a, b, low, high, more) in PRODUCTS.iter().copied() {
        let set = if more { CF | OF } else { 0 };
        for before in [CLEAR, SET] {
            let (result_low, result_high, flags) = mul(w, signed, a, b, before);
            assert_eq!(rt; (result_low, result_high), (low, high));
            assert!(rt; are_written(flags, before, CF | OF, set));
        }
    }
}

#[test]
fn divisions(rt: HostRuntime) {
    for (w, signed, high, low, by, answer) in DIVISIONS.iter().copied() {
        assert_eq!(rt; div(w, signed, high, low, by), answer);
    }
}

#[test]
fn one_bit(rt: HostRuntime) {
    for (op, w, a, index, value, carry) in BITS.iter().copied() {
        let set = if carry { CF } else { 0 };
        for before in [CLEAR, SET] {
            let (result, flags) = bit_test(op, w, a, index, before);
            assert_eq!(rt; result, value);
            assert!(rt; are_written(flags, before, CF, set));
        }
    }
}

#[test]
fn scans(rt: HostRuntime) {
    for (op, w, source, value, set) in SCANS.iter().copied() {
        let written = match op {
            ScanOp::Bsf | ScanOp::Bsr => ZF,
            ScanOp::Tzcnt | ScanOp::Lzcnt => CF | ZF,
            ScanOp::Popcnt => STATUS,
        };
        for before in [CLEAR, SET] {
            let (result, flags) = scan(op, w, OLD, source, before);
            assert_eq!(rt; result, value);
            assert!(rt; are_written(flags, before, written, set));
        }
    }
}

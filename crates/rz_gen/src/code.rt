// The code of a generated program.

ghost use Rattle.std.specs.Prelude.{◌≡◌, ◌<◌, ◌≤◌, ◌++◌, OnOk};
ghost use Rattle.rz_gen.specs.Code.{call, code, each_below, function, function_adding, head, table_calls, table_word};

use crate::bytes::push_filling;
use crate::places::{CODE_AT, function_at, head_length, head_size};
use crate::sequence::{FIRST_NUMBER, next_number};
use rz_num::{OutOfMemory, push_u32, push_u64};

// xor ebx, ebx
const OPENING: [u8; 2] = [0x31, 0xdb];

// mov r12d
const SET_COUNT: [u8; 2] = [0x41, 0xbc];

// call [r12*8]
const CALL_ENTRY: [u8; 4] = [0x42, 0xff, 0x14, 0xe5];

// dec r12d; jne back to the call; movzx edi, bl; mov eax, 60; syscall
const AGAIN_OR_EXIT: [u8; 15] = [
    0x41, 0xff, 0xcc, 0x75, 0xf3, 0x0f, 0xb6, 0xfb, 0xb8, 0x3c, 0x00, 0x00, 0x00, 0x0f, 0x05,
];

// add ebx, eax; test bl, 1; je past the next; add ebx, 7; ret
const ADD_AND_RETURN: [u8; 11] = [
    0x01, 0xc3, 0xf6, 0xc3, 0x01, 0x74, 0x03, 0x83, 0xc3, 0x07, 0xc3,
];

// int3
const INT3: u8 = 0xcc;

/// Appends the head, the functions and the table of `n` functions.
#[tactic(auto, unfolding(crate::specs::Code::code))]
pub fn push_code(out: &mut Vec<u8>, n: u32) -> Result<(), OutOfMemory>
    requires { n ≤ 4000 }
    ensures { OnOk result (out.new.items ≡ out.old.items ++ code n) }
{
    push_head(out, n)?;
    push_functions(out, n)?;
    push_table(out, n)
}

#[tactic(auto, unfolding(crate::specs::Code::head))]
fn push_head(out: &mut Vec<u8>, n: u32) -> Result<(), OutOfMemory>
    requires { n ≤ 4000 }
    ensures { OnOk result (out.new.items ≡ out.old.items ++ head n) }
{
    out.extend_from_slice(&OPENING)?;
    push_calls(out, n)?;
    push_table_calls(out, n)?;
    push_filling(out, INT3, (head_size(n) - head_length(n)) as usize)
}

// Appends a call of each function.
fn push_calls(out: &mut Vec<u8>, n: u32) -> Result<(), OutOfMemory>
    requires { n ≤ 4000 }
    ensures { OnOk result (out.new.items ≡ out.old.items ++ each_below (call n) n) }
{
    for j in 0..n {
        push_call(out, n, j)?;
    }
    Ok(())
}

#[tactic(auto, unfolding(crate::specs::Code::call))]
fn push_call(out: &mut Vec<u8>, n: u32, j: u32) -> Result<(), OutOfMemory>
    requires few { n ≤ 4000 }
    requires inside { j < n }
    ensures { OnOk result (out.new.items ≡ out.old.items ++ call n j) }
{
    let next = CODE_AT + 2 + 5 * (j + 1);
    out.push(0xe8)?;
    push_u32(out, function_at(n, j) - next)
}

// Appends the calls through the table, and the exit.
#[tactic(auto, unfolding(crate::specs::Code::table_calls))]
fn push_table_calls(out: &mut Vec<u8>, n: u32) -> Result<(), OutOfMemory>
    requires { n ≤ 4000 }
    ensures { OnOk result (out.new.items ≡ out.old.items ++ table_calls n) }
{
    out.extend_from_slice(&SET_COUNT)?;
    push_u32(out, n)?;
    out.extend_from_slice(&CALL_ENTRY)?;
    push_u32(out, function_at(n, n) - 8)?;
    out.extend_from_slice(&AGAIN_OR_EXIT)?;
    Ok(())
}

fn push_functions(out: &mut Vec<u8>, n: u32) -> Result<(), OutOfMemory>
    ensures { OnOk result (out.new.items ≡ out.old.items ++ each_below function n) }
{
    let mut x = FIRST_NUMBER;
    for _j in 0..n {
        let next = next_number(x);
        push_function(out, next)?;
        x = next;
    }
    Ok(())
}

// Appends a function that adds a number, and 7 where the sum is odd.
#[tactic(auto, unfolding(crate::specs::Code::function_adding))]
fn push_function(out: &mut Vec<u8>, x: u32) -> Result<(), OutOfMemory>
    ensures { OnOk result (out.new.items ≡ out.old.items ++ function_adding x) }
{
    out.push(0xb8)?;
    push_u32(out, x)?;
    out.extend_from_slice(&ADD_AND_RETURN)?;
    Ok(())
}

// Appends the functions' addresses.
fn push_table(out: &mut Vec<u8>, n: u32) -> Result<(), OutOfMemory>
    requires { n ≤ 4000 }
    ensures { OnOk result (out.new.items ≡ out.old.items ++ each_below (table_word n) n) }
{
    for j in 0..n {
        push_table_word(out, n, j)?;
    }
    Ok(())
}

#[tactic(auto, unfolding(crate::specs::Code::table_word))]
fn push_table_word(out: &mut Vec<u8>, n: u32, j: u32) -> Result<(), OutOfMemory>
    requires few { n ≤ 4000 }
    requires inside { j < n }
    ensures { OnOk result (out.new.items ≡ out.old.items ++ table_word n j) }
{
    push_u64(out, function_at(n, j) as u64)
}

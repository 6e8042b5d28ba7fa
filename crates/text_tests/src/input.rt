// Worked input files, with what the rules of input files say of each.

use rz_input::{InputError, print_input, read_input};
use rz_num::{Bytes, OutOfMemory};
use rz_sys::input::{Input, Reply};
use std::alloc::Global;
use std::test::Fail;

fn input_of(alloc: Global, text: &[u8]) -> Result<Input, InputError> {
    let Ok(bytes) = Bytes::from_slice(alloc, text) else {
        return Err(OutOfMemory.into());
    };
    read_input(alloc, &bytes)
}

#[test]
fn names_the_first_bad_line(rt: HostRuntime) {
    for (text, fault) in [
        (b"".as_slice(), None),
        (
            b"#\n\narg\narg 61\nin 62\nreply full\nreply atmost 01\nreply error 4095\n",
            None,
        ),
        (b"arg 61\nin 6", Some(InputError::BadLine(2))),
        (b"reply atmost 0", Some(InputError::BadLine(1))),
        (b"reply error 0", Some(InputError::BadLine(1))),
        (b"reply error 4096", Some(InputError::BadLine(1))),
        (
            b"reply atmost 18446744073709551616",
            Some(InputError::BadLine(1)),
        ),
        (
            b"reply atmost 000000000000000000001",
            Some(InputError::BadLine(1)),
        ),
        (b"reply full 1", Some(InputError::BadLine(1))),
        (b"#\narg ", Some(InputError::BadLine(2))),
        (b"arg 6100", Some(InputError::BadLine(1))),
        (b"in 6g", Some(InputError::BadLine(1))),
        (b"in", Some(InputError::BadLine(1))),
        (b"in 61 62", Some(InputError::BadLine(1))),
        (b"in 61\r\n", Some(InputError::BadLine(1))),
        (b"in  61", Some(InputError::BadLine(1))),
        (b" in 61", Some(InputError::BadLine(1))),
        (b"in\t61", Some(InputError::BadLine(1))),
        (b"\0", Some(InputError::BadLine(1))),
        (b"in \xff\xff", Some(InputError::BadLine(1))),
    ] {
        assert_eq!(rt; input_of(rt.alloc(), text).err(), fault, "{text:?}");
    }
}

// A line with an argument of so many bytes.
fn long_argument(alloc: Global, bytes: usize) -> Result<Vec<u8>, Fail> {
    let mut line = Vec::new(alloc);
    line.extend_from_slice(b"arg ")?;
    for _ in 0..bytes {
        line.extend_from_slice(b"6F")?;
    }
    Ok(line)
}

#[test]
fn arguments_take_65536_bytes(rt: HostRuntime) -> Result<(), Fail> {
    for (bytes, fault) in [(65_535, None), (65_536, Some(InputError::TooBig(1)))] {
        let line = long_argument(rt.alloc(), bytes)?;
        assert_eq!(rt; input_of(rt.alloc(), line.as_slice()).err(), fault);
    }
    let mut lines = long_argument(rt.alloc(), 65_534)?;
    lines.extend_from_slice(b"\narg\narg\narg 00")?;
    assert_eq!(rt;
        input_of(rt.alloc(), lines.as_slice()).err(),
        Some(InputError::TooBig(3))
    );
    Ok(())
}

#[test]
fn prints_what_it_reads(rt: HostRuntime) -> Result<(), Fail> {
    let text = b"reply atmost 1\nin 6162\narg 4a4B\nreply error 4\nin 63\narg";
    let input = input_of(rt.alloc(), text)?;
    assert_eq!(rt; input.stdin.as_slice(), b"abc".as_slice());
    assert_eq!(rt; input.args.as_slice().len(), 2);
    assert_eq!(rt; input.replies.first(), Reply::AtMost(1));
    let printed = print_input(rt.alloc(), &input)?;
    assert_eq!(rt;
        printed.as_slice(),
        b"arg 4a4b\narg\nin 616263\nreply atmost 1\nreply error 4\n".as_slice()
    );
    Ok(())
}

#[test]
fn prints_32_bytes_on_a_line(rt: HostRuntime) -> Result<(), Fail> {
    let mut input = Input::empty(rt.alloc());
    input.stdin.push_all(&[0; 33])?;
    let printed = print_input(rt.alloc(), &input)?;
    assert_eq!(rt;
        printed.as_slice(),
        b"in 0000000000000000000000000000000000000000000000000000000000000000\nin 00\n".as_slice()
    );
    Ok(())
}

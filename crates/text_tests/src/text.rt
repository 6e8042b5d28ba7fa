// Worked lines, words and numbers, with what is read of them by the rules of texts.

use rz_text::{Lines, decimal, has_content, hexadecimal, word};

#[test]
fn numbers_lines_from_1(rt: HostRuntime) {
    let mut lines = Lines::new(b"a\n\n#\r\nlast");
    assert_eq!(rt; lines.next_line(), Some((1, b"a".as_slice())));
    assert_eq!(rt; lines.next_line(), Some((2, b"".as_slice())));
    assert_eq!(rt; lines.next_line(), Some((3, b"#\r".as_slice())));
    assert_eq!(rt; lines.next_line(), Some((4, b"last".as_slice())));
    assert_eq!(rt; lines.next_line(), None);
}

#[test]
fn ends_behind_the_last_line_end(rt: HostRuntime) {
    let mut lines = Lines::new(b"\n");
    assert_eq!(rt; lines.next_line(), Some((1, b"".as_slice())));
    assert_eq!(rt; lines.next_line(), None);
    assert_eq!(rt; Lines::new(b"").next_line(), None);
}

#[test]
fn cuts_words_at_spaces(rt: HostRuntime) {
    for (i, piece) in [
        (0, b"".as_slice()),
        (1, b"a\t"),
        (2, b""),
        (3, b"b"),
        (4, b""),
    ] {
        assert_eq!(rt; word(b" a\t  b ", i), Some(piece), "word {i}");
    }
    assert_eq!(rt; word(b" a\t  b ", 5), None);
    assert_eq!(rt; word(b"", 0), Some(b"".as_slice()));
    assert!(rt; has_content(b" #") && !has_content(b"# a") && !has_content(b""));
}

#[test]
fn reads_decimal_numbers(rt: HostRuntime) {
    for (text, number) in [
        (b"0".as_slice(), Ok(0)),
        (b"007", Ok(7)),
        (b"18446744073709551615", Ok(u64::MAX)),
        (b"18446744073709551616", Err(20)),
        (b"00000000000000000001", Ok(1)),
        (b"000000000000000000001", Err(20)),
        (b"", Err(0)),
        (b"+1", Err(0)),
        (b"12a", Err(2)),
        (b"99999999999999999999a", Err(20)),
    ] {
        assert_eq!(rt; decimal(text), number, "{text:?}");
    }
}

#[test]
fn reads_hexadecimal_numbers(rt: HostRuntime) {
    for (text, number) in [
        (b"0x0".as_slice(), Ok(0)),
        (b"0x00fF", Ok(255)),
        (b"0xffffffffffffffff", Ok(u64::MAX)),
        (b"0x00000000000000001", Err(18)),
        (b"", Err(0)),
        (b"0", Err(1)),
        (b"0x", Err(2)),
        (b"0X1", Err(1)),
        (b"1", Err(0)),
        (b"0xag", Err(3)),
    ] {
        assert_eq!(rt; hexadecimal(text), number, "{text:?}");
    }
}

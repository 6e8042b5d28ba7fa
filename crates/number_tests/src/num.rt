// What no clause says: the values of worked fields, pages, words, products and quotients, and that the calls that take memory succeed.

use rz_num::{
    Bytes, OutOfMemory, Pairs, Text, Width, Words, add_carry, div_wide, get_u16, get_u32, get_u64,
    mask, mul_wide, page_up, put_u16, put_u32, put_u64, sign_extend, sub_borrow,
};

#[test]
fn reads_little_endian(rt: HostRuntime) {
    let field = [0xff, 1, 2, 3, 4, 5, 6, 7, 8];
    assert_eq!(rt; get_u16(&field, 1), 0x0201);
    assert_eq!(rt; get_u32(&field, 1), 0x0403_0201);
    assert_eq!(rt; get_u64(&field, 1), 0x0807_0605_0403_0201);
}

#[test]
fn writes_little_endian(rt: HostRuntime) {
    let mut field = [9u8; 10];
    put_u16(&mut field, 1, 0x0201);
    assert_eq!(rt; field.as_slice(), [9, 1, 2, 9, 9, 9, 9, 9, 9, 9].as_slice());
    put_u32(&mut field, 1, 0x0605_0403);
    assert_eq!(rt; field.as_slice(), [9, 3, 4, 5, 6, 9, 9, 9, 9, 9].as_slice());
    put_u64(&mut field, 1, 0x0807_0605_0403_0201);
    assert_eq!(rt; field.as_slice(), [9, 1, 2, 3, 4, 5, 6, 7, 8, 9].as_slice());
}

#[test]
fn rounds_pages_up(rt: HostRuntime) {
    for (x, page) in [(0, 0), (1, 4096), (4096, 4096), (4097, 8192)] {
        assert_eq!(rt; page_up(x), page, "at {x}");
    }
}

#[test]
fn cuts_and_extends(rt: HostRuntime) {
    for (width, x, low, extended) in [
        (Width::W8, 0x1_ff80, 0x80, 0xffff_ffff_ffff_ff80),
        (Width::W8, 0x1_ff7f, 0x7f, 0x7f),
        (Width::W16, 0x1_8000, 0x8000, 0xffff_ffff_ffff_8000),
        (
            Width::W32,
            0x1_8000_0000,
            0x8000_0000,
            0xffff_ffff_8000_0000,
        ),
        (
            Width::W64,
            0x8000_0000_0000_0000,
            0x8000_0000_0000_0000,
            0x8000_0000_0000_0000,
        ),
    ] {
        assert_eq!(rt; mask(width, x), low, "{width:?} {x}");
        assert_eq!(rt; sign_extend(width, x), extended, "{width:?} {x}");
    }
}

#[test]
fn lists_grow(rt: HostRuntime) -> Result<(), std::test::Fail> {
    let mut bytes = Bytes::from_slice(rt.alloc(), &[1, 2])?;
    bytes.push(3)?;
    bytes.push_all(&[4, 5])?;
    assert_eq!(rt; bytes.as_slice(), [1, 2, 3, 4, 5].as_slice());
    let mut words = Words::from_slice(rt.alloc(), &[1, 2])?;
    words.push(3)?;
    words.push_all(&[4, u64::MAX])?;
    assert_eq!(rt; words.as_slice(), [1, 2, 3, 4, u64::MAX].as_slice());
    let mut pairs = Pairs::from_slice(rt.alloc(), &[(1, 2)])?;
    pairs.push((3, 4))?;
    pairs.push_all(&[(5, 6)])?;
    assert_eq!(rt; pairs.as_slice(), [(1, 2), (3, 4), (5, 6)].as_slice());
    Ok(())
}

#[test]
fn texts_grow(rt: HostRuntime) -> Result<(), std::test::Fail> {
    let mut text = Text::from_slice(rt.alloc(), "a")?;
    text.push('é')?;
    text.push_all("bc")?;
    assert_eq!(rt; text.as_slice(), "aébc");
    Ok(())
}

#[test]
fn halves_of_products(rt: HostRuntime) {
    // -1 times -1 is 1, and 255 times 255 is 0xfe01.
    for (signed, halves) in [(true, (1, 0)), (false, (1, 0xfe))] {
        assert_eq!(rt; mul_wide(Width::W8, signed, 0xff, 0xff), halves);
    }
}

#[test]
fn quotients_and_remainders(rt: HostRuntime) {
    for (w, signed, high, low, by, answer) in [
        (Width::W8, false, 4, 0, 2, None),
        // -7 by 2 is -3, and -1 remains.
        (
            Width::W32,
            true,
            0xffff_ffff,
            0xffff_fff9,
            2,
            Some((0xffff_fffd, 0xffff_ffff)),
        ),
    ] {
        assert_eq!(rt; div_wide(w, signed, high, low, by), answer);
    }
}

#[test]
fn carries_and_borrows(rt: HostRuntime) {
    assert_eq!(rt; add_carry(Width::W16, 0xffff, 0, true), (0, true));
    assert_eq!(rt; sub_borrow(Width::W64, 0, u64::MAX, true), (0, true));
}

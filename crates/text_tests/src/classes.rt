// Worked class files, with what the rules of class files say of each.

use rz_classes::{ClassError, Classes, read_classes};
use rz_num::{Bytes, OutOfMemory};
use std::alloc::Global;
use std::test::Fail;

fn classes_of(alloc: Global, text: &[u8]) -> Result<Classes, ClassError> {
    let Ok(bytes) = Bytes::from_slice(alloc, text) else {
        return Err(OutOfMemory.into());
    };
    read_classes(alloc, &bytes)
}

#[test]
fn tells_the_lines(rt: HostRuntime) -> Result<(), Fail> {
    let text = b"# io\n\nfn 0x401030 0x401031 io\nfn 0x10 0X20 a";
    assert_eq!(rt;
        classes_of(rt.alloc(), text).err(),
        Some(ClassError::BadLine(4))
    );
    let text = b"# io\n\nfn 0x401030 0x401031 io\nfn 0x0010 0xfF ~!\nfn 0xff 0x100 io\n";
    let classes = classes_of(rt.alloc(), text)?;
    assert_eq!(rt; classes.len(), 3);
    assert_eq!(rt; classes.starts_at(0x10), Some(1));
    assert_eq!(rt; classes.starts_at(0xff), Some(2));
    assert_eq!(rt; classes.starts_at(0x11), None);
    assert_eq!(rt; classes.range(1), (0x10, 0xff));
    assert_eq!(rt; classes.class(1), b"~!".as_slice());
    assert_eq!(rt; Classes::none(rt.alloc()).starts_at(0), None);
    Ok(())
}

#[test]
fn names_the_first_bad_line(rt: HostRuntime) {
    for (text, fault) in [
        (b"".as_slice(), None),
        (
            b"fn 0x401000 0x401010 a\nfn 0x40100f 0x401020 b",
            Some(ClassError::Overlap(2)),
        ),
        (b"fn 0x401000 0x401010 a\nfn 0x401010 0x401020 b", None),
        (
            b"fn 0x401000 0x401010 a\nfn 0x400000 0x401001 b",
            Some(ClassError::Overlap(2)),
        ),
        (b"fn 0x401000 0x401010 a\nfn 0x400000 0x401000 b", None),
        (
            b"fn 0x20 0x30 a\nfn 0x10 0x40 b\nfn",
            Some(ClassError::Overlap(2)),
        ),
        (b"fn 0x10 0x10 a", Some(ClassError::BadLine(1))),
        (b"fn 0x10 0x11 a\r\n", Some(ClassError::BadLine(1))),
        (b"fn 0x10 0x11  a", Some(ClassError::BadLine(1))),
        (b" fn 0x10 0x11 a", Some(ClassError::BadLine(1))),
        (b"fn 0x10 0x11 a ", Some(ClassError::BadLine(1))),
        (b"fn\t0x10 0x11 a", Some(ClassError::BadLine(1))),
        (b"fn 0x10 0x11 \x7f", Some(ClassError::BadLine(1))),
        (b"fn 0x10 0x11 \0", Some(ClassError::BadLine(1))),
        (b"fn 10 0x11 a", Some(ClassError::BadLine(1))),
    ] {
        assert_eq!(rt; classes_of(rt.alloc(), text).err(), fault, "{text:?}");
    }
}

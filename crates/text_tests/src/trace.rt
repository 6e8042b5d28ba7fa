// What no clause says: that the calls that take memory succeed.

use rz_num::Bytes;
use rz_trace::{TraceFault, print_trace, read_trace};

#[test]
fn prints_what_it_reads(rt: HostRuntime) -> Result<(), std::test::Fail> {
    let lines =
        b"razor-trace 2\nprofile 2\nn 0x5\nn 0x401000\ne 0x5 0x401000\ne 0x401000 0x5\nend\n";
    let text = Bytes::from_slice(rt.alloc(), lines)?;
    let file = read_trace(rt.alloc(), &text)?;
    assert_eq!(rt; file.rec.nodes.as_slice(), [5, 0x40_1000].as_slice());
    assert_eq!(rt;
        print_trace(rt.alloc(), &file.rec)?.as_slice(),
        lines.as_slice()
    );
    Ok(())
}

#[test]
fn names_the_first_bad_line(rt: HostRuntime) -> Result<(), std::test::Fail> {
    for (lines, bad) in [
        (b"".as_slice(), 1),
        (b"razor-trace 3", 1),
        (b"razor-trace 1", 2),
        (b"razor-trace 1\nn 0x5\nn 0x5\nend\n", 3),
        (b"razor-trace 1\nn 0x6\nn 0x5\nend\n", 3),
        (b"razor-trace 1\nn 0x05\nend\n", 2),
        (b"razor-trace 1\nn 0xA\nend\n", 2),
        (b"razor-trace 1\nn 0x5\ne 0x5 0x6\nend\n", 3),
        (b"razor-trace 1\nend\nend\n", 3),
        (b"razor-trace 2\nprofile 3\nend\n", 2),
        (b"razor-trace 2\nend\n", 2),
        (b"razor-trace 1\nprofile 1\nend\n", 2),
    ] {
        let text = Bytes::from_slice(rt.alloc(), lines)?;
        assert_eq!(rt;
            read_trace(rt.alloc(), &text).err(),
            Some(TraceFault::BadLine(bad)),
            "{lines:?}"
        );
    }
    Ok(())
}

// What no clause says: that the lists of an input find their memory.

use rz_num::Bytes;
use rz_sys::input::{Args, Replies, Reply};
use std::test::Fail;

#[test]
fn lists_grow(rt: HostRuntime) -> Result<(), Fail> {
    let mut replies = Replies::new(rt.alloc());
    replies.push(Reply::AtMost(2))?;
    replies.push(Reply::Error(5))?;
    let mut replies = replies.copy(rt.alloc())?;
    assert_eq!(rt; replies.first(), Reply::AtMost(2));
    replies.advance();
    assert_eq!(rt; replies.first(), Reply::Error(5));
    replies.advance();
    assert_eq!(rt; replies.first(), Reply::Full);
    let mut args = Args::new(rt.alloc());
    args.push(Bytes::from_slice(rt.alloc(), b"a")?)?;
    assert_eq!(rt; args.as_slice().len(), 1);
    Ok(())
}

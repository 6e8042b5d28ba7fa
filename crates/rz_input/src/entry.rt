// What a line of an input file says.

use rz_num::Bytes;
use rz_sys::input::Reply;

/// What a line of an input file says.
#[derive(Drop)]
pub enum Entry {
    /// An argument string, without its zero byte.
    Arg(Bytes),
    /// Bytes of the standard input.
    Stdin(Bytes),
    /// The reply to a system call.
    Reply(Reply),
}

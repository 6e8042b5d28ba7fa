//! The world: what a run has still to be given, and what it did.

use crate::event::Events;
use crate::input::Replies;
use rz_num::Bytes;
use std::marker::Model;

/// The bytes of standard input that haven't been read.
#[derive(Drop)]
pub struct Unread {
    bytes: Bytes,
    left: usize,
}

impl Model for Unread {
    ghost use Rattle.std.specs.Prelude.{◌-◌, ◌≤◌, ℕ, List, length, drop};

    ghost Value = { List ℕ };

    ghost view = { λ u. drop (length u.bytes - u.left) u.bytes };

    ghost invariant = { λ u. u.left ≤ length u.bytes };
}

impl Unread {
    ghost use Rattle.std.specs.Prelude.{◌≡◌, ◌≤◌, length, drop};

    /// The bytes of an input of which nothing has been read. It takes no memory.
    pub fn from_bytes(bytes: Bytes) -> Unread
        ensures { result ≡ bytes }
    {
        let left = bytes.as_slice().len();
        Unread { bytes, left }
    }

    /// The bytes as a slice.
    pub fn as_slice(&self) -> &[u8]
        ensures { result.now ≡ self.now }
    {
        let bytes = self.bytes.as_slice();
        &bytes[bytes.len() - self.left..]
    }

    /// Leaves out the first `count` bytes. None is moved.
    pub fn advance(&mut self, count: usize)
        requires { count ≤ length self.old }
        ensures { self.new ≡ drop count self.old }
    {
        self.left -= count;
    }
}

/// What system calls read and leave, memory and registers aside.
#[derive(Drop)]
pub struct World {
    /// The rest of the input.
    pub stdin: Unread,
    /// The rest of the replies.
    pub replies: Replies,
    pub events: Events,
    /// The address where the heap begins.
    pub first_break: u64,
    /// The address where the open part of the heap ends.
    pub brk: u64,
    /// The number of the heap's region, from 0.
    pub heap: u32,
}

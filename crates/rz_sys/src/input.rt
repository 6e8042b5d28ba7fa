//! What a run is given: arguments, standard input, and the replies to its calls.

ghost use Rattle.std.specs.Prelude.{List, ℕ};

use rz_num::{Bytes, OutOfMemory};
use std::alloc::Global;
use std::collections::VecDeque;
use std::collections::vec_deque::Iter;
use std::marker::Model;

/// How the outside answers one call of read or write.
#[derive(Clone, Copy, PartialEq, Eq, Debug)]
pub enum Reply {
    /// As many bytes as are asked for.
    Full,
    /// At most this number of bytes.
    AtMost(u64),
    /// None, with this error number.
    Error(u64),
}

/// Replies, the next one first.
#[derive(Drop)]
pub struct Replies {
    items: VecDeque<Reply>,
}

impl Model for Replies {
    ghost use Rattle.std.specs.Prelude.{List};
    ghost use Rattle.rz_sys.specs.declared.input.Reply.{Reply};

    ghost Value = { List Reply };

    ghost view = { λ r. r.items.items };
}

impl Replies {
    ghost use Rattle.std.specs.Prelude.{◌≡◌, [], ◌∷◌, ◌++◌, OnOk, OnErr, IfOk};
    ghost use Rattle.std.specs.VecDeque.Iter.{deque_iter_rest};
    ghost use Rattle.rz_sys.specs.Answer.{next_reply, later_replies};

    /// No replies: then each call is answered whole. It takes no memory.
    pub fn new(alloc: Global) -> Replies
        ensures { result ≡ [] }
    {
        Replies {
            items: VecDeque::new(alloc),
        }
    }

    /// A copy of the replies. It refuses for want of memory alone.
    pub fn copy(&self, alloc: Global) -> Result<Replies, OutOfMemory>
        ensures { IfOk result (λ copy. copy ≡ self.now) }
    {
        Ok(Replies {
            items: self.items.iter().copied().collect(alloc)?,
        })
    }

    /// Appends a reply. It refuses for want of memory alone, and then the list is unchanged.
    pub fn push(&mut self, reply: Reply) -> Result<(), OutOfMemory>
        ensures ok { OnOk result (self.new ≡ self.old ++ reply ∷ []) }
        ensures err { OnErr result (self.new ≡ self.old) }
    {
        self.items.push_back(reply)?;
        Ok(())
    }

    /// The replies in turn.
    pub fn iter(&self) -> Iter<'_, Reply>
        ensures { deque_iter_rest result ≡ self.now }
    {
        self.items.iter()
    }

    /// The reply in turn.
    pub fn first(&self) -> Reply
        ensures { result ≡ next_reply self.now }
    {
        match self.items.front() {
            Some(reply) => *reply,
            None => Reply::Full,
        }
    }

    /// Leaves out the reply in turn.
    pub fn advance(&mut self)
        ensures { self.new ≡ later_replies self.old }
    {
        let _ = self.items.pop_front();
    }
}

/// Argument strings.
#[derive(Drop)]
pub struct Args {
    items: Vec<Bytes>,
}

impl Model for Args {
    ghost Value = { List (List ℕ) };

    ghost view = { λ a. a.items.items };
}

impl Args {
    ghost use Rattle.std.specs.Prelude.{◌≡◌, [], ◌∷◌, ◌++◌, OnOk, OnErr};

    /// No argument strings. It takes no memory.
    pub fn new(alloc: Global) -> Args
        ensures { result ≡ [] }
    {
        Args {
            items: Vec::new(alloc),
        }
    }

    /// Appends an argument string. It refuses for want of memory alone, and then the list is unchanged.
    pub fn push(&mut self, arg: Bytes) -> Result<(), OutOfMemory>
        ensures ok { OnOk result (self.new ≡ self.old ++ arg ∷ []) }
        ensures err { OnErr result (self.new ≡ self.old) }
    {
        self.items.push(arg)?;
        Ok(())
    }

    /// The argument strings as a slice.
    pub fn as_slice(&self) -> &[Bytes]
        ensures { result.now ≡ self.now }
    {
        self.items.as_slice()
    }
}

/// What a run is given: its arguments, its standard input, and the replies to its calls.
#[derive(Drop)]
pub struct Input {
    pub args: Args,
    pub stdin: Bytes,
    pub replies: Replies,
}

impl Input {
    ghost use Rattle.std.specs.Prelude.{◌≡◌};
    ghost use Rattle.rz_sys.specs.Input.{empty_input};

    /// No arguments, no standard input and no replies. It takes no memory.
    pub fn empty(alloc: Global) -> Input
        ensures { result ≡ empty_input }
    {
        Input {
            args: Args::new(alloc),
            stdin: Bytes::new(alloc),
            replies: Replies::new(alloc),
        }
    }
}

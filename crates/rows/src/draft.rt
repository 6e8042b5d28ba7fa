//! What a case begins with: its files, and which calls fail.

use crate::command::{Given, Side};
use crate::fault::Fault;
use crate::thin::thin;
use rz_num::{Bytes, OutOfMemory, Text};
use std::alloc::Global;

/// What a case begins with.
#[derive(Drop)]
pub struct Draft {
    /// In the order of the script; no name stands twice.
    pub files: Vec<(Text, Bytes)>,
    /// The numbers of the store's calls that fail, from 1; none for a plain store.
    pub store: Option<Vec<u64>>,
    /// Those of the sink's calls.
    pub sink: Option<Vec<u64>>,
}

impl Draft {
    /// No files, and no call that fails.
    pub fn new(alloc: Global) -> Draft {
        Draft {
            files: Vec::new(alloc),
            store: Some(Vec::new(alloc)),
            sink: Some(Vec::new(alloc)),
        }
    }

    /// What a name holds.
    pub fn get(&self, name: &str) -> Option<&[u8]> {
        let (_, bytes) = self.files.iter().find(|(key, _)| key.as_slice() == name)?;
        Some(bytes.as_slice())
    }

    /// Follows a command. One that doesn't fit changes nothing.
    pub fn give(&mut self, alloc: Global, given: Given<'_>) -> Result<(), Fault> {
        match given {
            Given::File(name, bytes) => self.add(alloc, name, bytes),
            Given::Thin(name, code) => self.add(alloc, name, thin(alloc, code.as_slice())?),
            Given::Line(line) => self.add_line(line),
            Given::Zeros(name, len) => self.add(alloc, name, zeros(alloc, len)?),
            Given::Put(name, at, bytes) => self.put(name, at, bytes.as_slice()),
            Given::Repeat(name, at, count, bytes) => {
                let all = repeated(alloc, bytes.as_slice(), count)?;
                self.put(name, at, all.as_slice())
            }
            Given::Cut(name, len) => self.cut(alloc, name, len),
            Given::Failing(side, calls) => {
                self.set_failing(side, Some(calls));
                Ok(())
            }
            Given::Plain(side) => {
                self.set_failing(side, None);
                Ok(())
            }
        }
    }

    // Adds a file, the last of all. A name that is there already is refused.
    fn add(&mut self, alloc: Global, name: &str, bytes: Bytes) -> Result<(), Fault> {
        if self.get(name).is_some() {
            return Err(Fault::Line);
        }
        self.files.push((Text::from_slice(alloc, name)?, bytes))?;
        Ok(())
    }

    // Adds a line to the last file.
    fn add_line(&mut self, line: &str) -> Result<(), Fault> {
        let Some((_, bytes)) = self.files.last_mut() else {
            return Err(Fault::Line);
        };
        bytes.push_all(line.as_bytes())?;
        bytes.push(b'\n')?;
        Ok(())
    }

    // Writes over bytes of a file from a place on. None may stand past its end.
    fn put(&mut self, name: &str, at: usize, new: &[u8]) -> Result<(), Fault> {
        let bytes = self.file_mut(name)?;
        let len = bytes.as_slice().len();
        if len < at || len - at < new.len() {
            return Err(Fault::Line);
        }
        bytes.overwrite(at, new);
        Ok(())
    }

    // Cuts a file to a length, which is at most its own.
    fn cut(&mut self, alloc: Global, name: &str, len: usize) -> Result<(), Fault> {
        let bytes = self.file_mut(name)?;
        if bytes.as_slice().len() < len {
            return Err(Fault::Line);
        }
        *bytes = Bytes::from_slice(alloc, &bytes.as_slice()[..len])?;
        Ok(())
    }

    fn file_mut(&mut self, name: &str) -> Result<&mut Bytes, Fault> {
        for (key, bytes) in self.files.iter_mut() {
            if key.as_slice() == name {
                return Ok(bytes);
            }
        }
        Err(Fault::Line)
    }

    fn set_failing(&mut self, side: Side, calls: Option<Vec<u64>>) {
        match side {
            Side::Store => self.store = calls,
            Side::Sink => self.sink = calls,
        }
    }
}

// So many zero bytes.
fn zeros(alloc: Global, len: usize) -> Result<Bytes, OutOfMemory> {
    Ok(Bytes::from_vec(vec![in alloc; 0; len]?))
}

// The same bytes so many times.
fn repeated(alloc: Global, bytes: &[u8], count: u64) -> Result<Bytes, OutOfMemory> {
    let mut all = Bytes::new(alloc);
    for _ in 0..count {
        all.push_all(bytes)?;
    }
    Ok(all)
}

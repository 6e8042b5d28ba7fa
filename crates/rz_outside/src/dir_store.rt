// Real files.

ghost use Rattle.std.specs.Prelude.{◌≡◌, [], None, false};

use crate::transfer::{Stopped, read_first, write_whole};
use crate::{ReadErr, Store, WriteErr};
use rz_num::{Bytes, OutOfMemory, Text};
use std::alloc::Global;
use std::fs::{self, OpenFile, OpenOptions, Permissions};
use std::io::{self, ErrorKind, Write};
use std::os::unix::fs::OpenOptionsExt;
use std::rt::Files;

/// Files of the system. It does not tell what they hold.
///
/// A plain file is replaced: the bytes go to a new file beside it, whose name is its own with `.razor-` and a digit
/// behind, and that file then takes its name and its mode. So where a write is `Failed`, or the process is killed, what
/// was there is there whole; a killed process may leave the file beside it. A file that nobody may write isn't replaced.
/// A link, a device or a pipe is written in place: where that is `Failed`, a first part of the bytes was written. A new
/// file that begins as an ELF file may be executed.
#[derive(Drop)]
pub struct DirStore<'a, R: Files> {
    rt: &'a R,
    faults: u64,
    failed: Text,
}

impl<'a, R: Files> DirStore<'a, R> {
    /// The files that a runtime reaches.
    pub fn new(alloc: Global, rt: &'a R) -> DirStore<'a, R>
        ensures told { ⟦<DirStore<'a, R> as Store>⟧.told result ≡ false }
        ensures faults { ⟦<DirStore<'a, R> as Store>⟧.faults result ≡ 0 }
        ensures failed_name { ⟦<DirStore<'a, R> as Store>⟧.failed_name result ≡ [] }
    {
        DirStore {
            rt,
            faults: 0,
            failed: Text::new(alloc),
        }
    }
}

impl<R: Files> Store for DirStore<'_, R> {
    ghost told = { λ _. false };

    ghost files = { λ _ _. None };

    ghost faults = { λ s. s.faults };

    ghost failed_name = { λ s. s.failed };

    fn read_all(&mut self, alloc: Global, name: &Text, max: u64) -> Result<Bytes, ReadErr> {
        let copy = Text::from_slice(alloc, name.as_slice())?;
        let read = read_file(self.rt, alloc, name.as_slice(), max);
        if let Err(ReadErr::Missing | ReadErr::Failed) = read {
            self.faults = self.faults.saturating_add(1);
            self.failed = copy;
        }
        read
    }

    fn write_all(&mut self, alloc: Global, name: &Text, bytes: &Bytes) -> Result<(), WriteErr> {
        let copy = Text::from_slice(alloc, name.as_slice())?;
        let written = write_file(self.rt, alloc, name.as_slice(), bytes.as_slice());
        if let Err(WriteErr::Failed) = written {
            self.faults = self.faults.saturating_add(1);
            self.failed = copy;
        }
        written
    }
}

// Reads a file's first bytes.
fn read_file<R: Files>(rt: &R, alloc: Global, name: &str, max: u64) -> Result<Bytes, ReadErr> {
    let mut file = match fs::open(rt, name) {
        Ok(file) => file,
        Err(e) => {
            return Err(match e.kind() {
                ErrorKind::NotFound => ReadErr::Missing,
                ErrorKind::OutOfMemory => ReadErr::OutOfMemory,
                _ => ReadErr::Failed,
            });
        }
    };
    read_first(alloc, &mut file, max)
}

// Makes a file hold these bytes: a plain one is replaced, and one that isn't there is made; a link, a device or a pipe
// is written in place.
fn write_file<R: Files>(rt: &R, alloc: Global, name: &str, bytes: &[u8]) -> Result<(), WriteErr> {
    match fs::symlink_metadata(rt, name) {
        Ok(found) if found.is_file() => replace(rt, alloc, name, Some(found.permissions()), bytes),
        Ok(_) => write_in_place(rt, name, bytes),
        Err(e) if e.kind() == ErrorKind::NotFound => replace(rt, alloc, name, None, bytes),
        Err(e) => Err(refusal(e)),
    }
}

// Why a call on a file's name gave nothing.
fn refusal(e: io::Error) -> WriteErr {
    match e.kind() {
        ErrorKind::OutOfMemory => WriteErr::OutOfMemory,
        _ => WriteErr::Failed,
    }
}

// Writes to what is there. Where that fails, a first part of the bytes was written.
fn write_in_place<R: Files>(rt: &R, name: &str, bytes: &[u8]) -> Result<(), WriteErr> {
    let mut options = OpenOptions::new();
    options
        .write(true)
        .create(true)
        .truncate(true)
        .mode(new_mode(bytes));
    let mut file = options.open(rt, name).map_err(refusal)?;
    write_whole(&mut file, bytes).map_err(|_| WriteErr::Failed)
}

// Writes the bytes to a new file beside a name, and gives that file the name. Where that fails the new file is removed,
// and what had the name still has it. A file that nobody may write isn't replaced.
fn replace<R: Files>(
    rt: &R,
    alloc: Global,
    name: &str,
    kept: Option<Permissions>,
    bytes: &[u8],
) -> Result<(), WriteErr> {
    if let Some(mode) = &kept
        && mode.readonly()
    {
        return Err(WriteErr::Failed);
    }
    let beside = fill_beside(rt, alloc, name, kept, bytes)?;
    if fs::rename(rt, beside.as_slice(), name).is_err() {
        let _ = fs::remove_file(rt, beside.as_slice());
        return Err(WriteErr::Failed);
    }
    Ok(())
}

// Writes the bytes to a new file beside a name, and gives the new file's name.
fn fill_beside<R: Files>(
    rt: &R,
    alloc: Global,
    name: &str,
    kept: Option<Permissions>,
    bytes: &[u8],
) -> Result<Text, WriteErr> {
    for number in ['0', '1', '2', '3', '4', '5', '6', '7', '8', '9'] {
        let beside = name_beside(alloc, name, number)?;
        let mut options = OpenOptions::new();
        options.write(true).create_new(true).mode(new_mode(bytes));
        match options.open(rt, beside.as_slice()) {
            Ok(mut file) => {
                if fill(&mut file, kept, bytes).is_err() {
                    let _ = fs::remove_file(rt, beside.as_slice());
                    return Err(WriteErr::Failed);
                }
                return Ok(beside);
            }
            Err(e) if e.kind() == ErrorKind::AlreadyExists => {}
            Err(e) => return Err(refusal(e)),
        }
    }
    Err(WriteErr::Failed)
}

// The name of a file beside a file.
fn name_beside(alloc: Global, name: &str, number: char) -> Result<Text, OutOfMemory> {
    let mut beside = Text::from_slice(alloc, name)?;
    beside.push_all(".razor-")?;
    beside.push(number)?;
    Ok(beside)
}

// Writes the bytes to a new file, with the permissions that are kept, and waits until the system has them.
fn fill<F: Write + OpenFile>(
    file: &mut F,
    kept: Option<Permissions>,
    bytes: &[u8],
) -> Result<(), Stopped> {
    write_whole(file, bytes)?;
    if let Some(mode) = kept {
        file.set_permissions(mode).map_err(|_| Stopped)?;
    }
    file.sync_all().map_err(|_| Stopped)
}

// The first bytes of an ELF file.
const ELF_MAGIC: [u8; 4] = [0x7f, b'E', b'L', b'F'];

// The permission bits of a new file, before the umask takes some away.
fn new_mode(bytes: &[u8]) -> u32 {
    if bytes.starts_with(&ELF_MAGIC) {
        0o777
    } else {
        0o666
    }
}

// What no clause says: that calls succeed, which calls of a fake fail and what they leave, and that real files and
// standard output are reached.

use rz_num::{Bytes, OutOfMemory, Text};
use rz_outside::{
    DirStore, MemSink, MemStore, OutSink, PlainSink, PlainStore, PutErr, ReadErr, Sink, Store,
    WriteErr, has_distinct_names,
};
use std::alloc::{AllocGlobal, Global};
use std::fmt::Display;
use std::fs::{self, Permissions};
use std::io::{self, Print};
use std::os::unix::fs::{PermissionsExt, symlink};
use std::process::Abort;
use std::test::Fail;

// One file.
fn one_file(alloc: Global, name: &str, bytes: &[u8]) -> Result<Vec<(Text, Bytes)>, OutOfMemory> {
    let mut files = Vec::new(alloc);
    files.push((
        Text::from_slice(alloc, name)?,
        Bytes::from_slice(alloc, bytes)?,
    ))?;
    Ok(files)
}

// Reads the first bytes of a file.
fn read<S: Store>(alloc: Global, store: &mut S, name: &str, max: u64) -> Result<Bytes, ReadErr> {
    let name = Text::from_slice(alloc, name)?;
    store.read_all(alloc, &name, max)
}

fn write<S: Store>(alloc: Global, store: &mut S, name: &str, bytes: &[u8]) -> Result<(), WriteErr> {
    let name = Text::from_slice(alloc, name)?;
    write_to(alloc, store, &name, bytes)
}

fn write_to<S: Store>(
    alloc: Global,
    store: &mut S,
    name: &Text,
    bytes: &[u8],
) -> Result<(), WriteErr> {
    let bytes = Bytes::from_slice(alloc, bytes)?;
    store.write_all(alloc, name, &bytes)
}

// Asserts what the first bytes of a file are.
fn assert_read<S: Store>(
    rt: &(impl Abort + AllocGlobal),
    store: &mut S,
    name: &str,
    max: u64,
    expected: &[u8],
) -> Result<(), ReadErr> {
    let bytes = read(rt.alloc(), store, name, max)?;
    assert_eq!(rt; bytes.as_slice(), expected);
    Ok(())
}

fn assert_held(rt: &impl Abort, held: Option<&[u8]>, expected: &[u8]) {
    match held {
        Some(held) => assert_eq!(rt; held, expected),
        None => assert!(rt; false, "no such file"),
    }
}

// The first read and the third call, a write, fail.
fn failing_store(rt: &(impl Abort + AllocGlobal)) -> Result<MemStore, OutOfMemory> {
    let files = one_file(rt.alloc(), "a", &[1, 2, 3, 4, 5])?;
    assert!(rt; has_distinct_names(files.as_slice()));
    MemStore::new(rt.alloc(), files, vec![in rt.alloc(); 1, 3]?)
}

#[test]
fn listed_calls_of_a_store_fail(rt: HostRuntime) -> Result<(), Fail> {
    let mut store = failing_store(&rt)?;
    let bytes = [6, 7, 8, 9, 10];
    assert_eq!(rt;
        read(rt.alloc(), &mut store, "a", 9).err(),
        Some(ReadErr::Failed)
    );
    assert_read(&rt, &mut store, "a", 3, &[1, 2, 3])?;
    assert_eq!(rt;
        write(rt.alloc(), &mut store, "b", &bytes),
        Err(WriteErr::Failed)
    );
    assert_held(&rt, store.get("b"), &[6, 7]);
    assert_eq!(rt; write(rt.alloc(), &mut store, "b", &bytes), Ok(()));
    assert_held(&rt, store.get("b"), &bytes);
    assert_held(&rt, store.get("a"), &[1, 2, 3, 4, 5]);
    Ok(())
}

#[test]
fn listed_calls_of_a_sink_fail(rt: HostRuntime) -> Result<(), Fail> {
    let mut sink = MemSink::new(rt.alloc(), vec![in rt.alloc(); 2]?)?;
    let text = Bytes::from_slice(rt.alloc(), b"abc")?;
    assert_eq!(rt; sink.put(&text), Ok(()));
    assert_eq!(rt; sink.put(&text), Err(PutErr::Failed));
    assert_eq!(rt; sink.put(&text), Ok(()));
    assert_eq!(rt; sink.as_slice(), b"abcaabc".as_slice());
    Ok(())
}

fn plain_store(rt: &(impl Abort + AllocGlobal)) -> Result<PlainStore, OutOfMemory> {
    let files = one_file(rt.alloc(), "a", &[1, 2])?;
    assert!(rt; has_distinct_names(files.as_slice()));
    PlainStore::new(rt.alloc(), files)
}

#[test]
fn a_plain_store_holds_what_it_gets(rt: HostRuntime) -> Result<(), Fail> {
    let mut store = plain_store(&rt)?;
    assert_eq!(rt;
        read(rt.alloc(), &mut store, "b", 9).err(),
        Some(ReadErr::Missing)
    );
    write(rt.alloc(), &mut store, "a", &[3])?;
    write(rt.alloc(), &mut store, "b", &[3])?;
    assert_eq!(rt; store.get("a"), Some([3].as_slice()));
    assert_read(&rt, &mut store, "b", 9, &[3])?;
    Ok(())
}

#[test]
fn a_plain_sink_holds_what_it_gets(rt: HostRuntime) -> Result<(), Fail> {
    let mut sink = PlainSink::new(rt.alloc());
    let bytes = Bytes::from_slice(rt.alloc(), &[3])?;
    sink.put(&bytes)?;
    assert_eq!(rt; sink.as_slice(), [3].as_slice());
    Ok(())
}

#[test]
fn a_name_given_twice_is_found(rt: HostRuntime) -> Result<(), Fail> {
    let mut files = one_file(rt.alloc(), "a", &[1])?;
    files.push((Text::from_slice(rt.alloc(), "b")?, Bytes::new(rt.alloc())))?;
    assert!(rt; has_distinct_names(files.as_slice()));
    files.push((Text::from_slice(rt.alloc(), "a")?, Bytes::new(rt.alloc())))?;
    assert!(rt; !has_distinct_names(files.as_slice()));
    Ok(())
}

#[test]
fn real_files_are_written_and_read(rt: HostRuntime) -> Result<(), Fail> {
    let mut store = DirStore::new(rt.alloc(), &rt);
    write(rt.alloc(), &mut store, "rz_outside_written", &[7; 9000])?;
    assert_read(&rt, &mut store, "rz_outside_written", 9999, &[7; 9000])?;
    assert_read(&rt, &mut store, "rz_outside_written", 2, &[7, 7])?;
    fs::remove_file(&rt, "rz_outside_written")?;
    assert_eq!(rt;
        read(rt.alloc(), &mut store, "rz_outside_written", 2).err(),
        Some(ReadErr::Missing)
    );
    assert_eq!(rt;
        write(rt.alloc(), &mut store, "rz_outside_nowhere/file", &[7]),
        Err(WriteErr::Failed)
    );
    Ok(())
}

// Writes a file, and tells the permission bits that it has then.
fn mode_after(
    rt: &HostRuntime,
    store: &mut DirStore<'_, HostRuntime>,
    name: &str,
    bytes: &[u8],
) -> Result<u32, Fail> {
    let text = Text::from_slice(rt.alloc(), name)?;
    store.write_all(rt.alloc(), &text, &Bytes::from_slice(rt.alloc(), bytes)?)?;
    Ok(fs::metadata(rt, name)?.permissions().mode())
}

#[test]
fn new_elf_files_may_be_executed(rt: HostRuntime) -> Result<(), Fail> {
    let mut store = DirStore::new(rt.alloc(), &rt);
    let elf = mode_after(&rt, &mut store, "rz_outside_elf", &[0x7f, 0x45, 0x4c, 0x46])?;
    assert_eq!(rt; elf & 0o100, 0o100);
    let text = mode_after(&rt, &mut store, "rz_outside_text", &[0x45, 0x4c, 0x46])?;
    assert_eq!(rt; text & 0o111, 0);
    let kept = mode_after(
        &rt,
        &mut store,
        "rz_outside_text",
        &[0x7f, 0x45, 0x4c, 0x46],
    )?;
    assert_eq!(rt; kept, text);
    fs::remove_file(&rt, "rz_outside_elf")?;
    fs::remove_file(&rt, "rz_outside_text")?;
    Ok(())
}

// What a file holds after a write to it, which may fail.
fn held_after(
    rt: &HostRuntime,
    store: &mut DirStore<'_, HostRuntime>,
    name: &str,
    bytes: &[u8],
) -> Result<(Result<(), WriteErr>, Bytes), Fail> {
    let text = Text::from_slice(rt.alloc(), name)?;
    let written = store.write_all(rt.alloc(), &text, &Bytes::from_slice(rt.alloc(), bytes)?);
    Ok((written, store.read_all(rt.alloc(), &text, 99)?))
}

#[test]
fn a_plain_file_is_replaced_and_keeps_its_mode(rt: HostRuntime) -> Result<(), Fail> {
    let name = "rz_outside_replaced";
    let mut store = DirStore::new(rt.alloc(), &rt);
    mode_after(&rt, &mut store, name, &[1, 2, 3])?;
    fs::set_permissions(&rt, name, Permissions::from_mode(0o640))?;
    let mode = mode_after(&rt, &mut store, name, &[0x7f, 0x45, 0x4c, 0x46])?;
    assert_eq!(rt; mode & 0o777, 0o640);
    assert!(rt; !fs::exists(&rt, "rz_outside_replaced.razor-0")?);
    fs::set_permissions(&rt, name, Permissions::from_mode(0o440))?;
    let (written, held) = held_after(&rt, &mut store, name, &[4])?;
    assert_eq!(rt; written, Err(WriteErr::Failed));
    assert_eq!(rt; held.as_slice(), [0x7f, 0x45, 0x4c, 0x46].as_slice());
    fs::remove_file(&rt, name)?;
    Ok(())
}

#[test]
fn a_link_is_written_through(rt: HostRuntime) -> Result<(), Fail> {
    let mut store = DirStore::new(rt.alloc(), &rt);
    symlink(&rt, "rz_outside_behind", "rz_outside_link")?;
    let (written, held) = held_after(&rt, &mut store, "rz_outside_link", &[5, 6])?;
    assert_eq!(rt; written, Ok(()));
    assert_eq!(rt; held.as_slice(), [5, 6].as_slice());
    assert!(rt; fs::metadata(&rt, "rz_outside_behind")?.is_file());
    fs::remove_file(&rt, "rz_outside_link")?;
    fs::remove_file(&rt, "rz_outside_behind")?;
    Ok(())
}

// Prints nothing.
struct Full;

impl Print for Full {
    fn print<D: Display + Drop>(&self, _: D) -> io::Result<()> {
        Ok(())
    }

    fn println<D: Display + Drop>(&self, _: D) -> io::Result<()> {
        Ok(())
    }

    fn write_all(&self, _: &[u8]) -> io::Result<()> {
        Ok(())
    }

    fn write_some(&self, _: &[u8]) -> io::Result<usize> {
        Ok(0)
    }
}

#[test]
fn standard_output_is_written(rt: HostRuntime) -> Result<(), Fail> {
    let text = Bytes::from_slice(rt.alloc(), b"to standard output\n")?;
    assert_eq!(rt; OutSink::new(&rt).put(&text), Ok(()));
    assert_eq!(rt; OutSink::new(&Full).put(&text), Err(PutErr::Failed));
    Ok(())
}

//! The commands of a script.

use crate::fault::Fault;
use crate::words::Words;
use rz_num::{Bytes, Text};
use std::alloc::Global;

/// What of the outside a command speaks of.
#[derive(Clone, Copy)]
pub enum Side {
    Store,
    Sink,
}

/// What a case begins with. Places and lengths are in bytes.
#[derive(Drop)]
pub enum Given<'a> {
    /// A file of these bytes.
    File(&'a str, Bytes),
    /// The thin file of this code.
    Thin(&'a str, Bytes),
    /// A further line of the last file.
    Line(&'a str),
    /// A file of so many zero bytes.
    Zeros(&'a str, usize),
    /// Other bytes from a place of a file on.
    Put(&'a str, usize, Bytes),
    /// The same bytes so many times from a place of a file on.
    Repeat(&'a str, usize, u64, Bytes),
    /// The length to which a file is cut.
    Cut(&'a str, usize),
    /// The calls with these numbers fail.
    Failing(Side, Vec<u64>),
    /// A store or a sink of which no call fails.
    Plain(Side),
}

/// What is asked of the files. Places and lengths are in bytes.
#[derive(Clone, Copy)]
pub enum Question<'a> {
    Length(&'a str),
    /// So many bytes from a place on.
    Part(&'a str, usize, usize),
    Same(&'a str, &'a str),
    Missing(&'a str),
    /// How the machine runs a file, for at most this number of steps.
    Machine(&'a str, u64),
}

/// A line of the script that is neither empty nor a comment.
#[derive(Drop)]
pub enum Command<'a> {
    Case,
    Given(Given<'a>),
    Run(Vec<Text>),
    Question(Question<'a>),
}

/// Reads a command. The line is not empty.
pub fn read_command(alloc: Global, line: &str) -> Result<Command<'_>, Fault> {
    if let Some(text) = line.strip_prefix('|') {
        let text = text.strip_prefix(' ').unwrap_or(text);
        return Ok(Command::Given(Given::Line(text)));
    }
    let mut words = Words::new(line);
    let verb = words.word()?;
    match verb {
        "case" => Ok(Command::Case),
        "run" => Ok(Command::Run(words.texts(alloc)?)),
        "length" | "bytes" | "same" | "missing" | "machine" => {
            let question = read_question(verb, &mut words)?;
            words.end()?;
            Ok(Command::Question(question))
        }
        "failing" | "plain" => Ok(Command::Given(read_side(alloc, verb, words)?)),
        _ => Ok(Command::Given(read_file(alloc, verb, words)?)),
    }
}

fn read_question<'a>(verb: &str, words: &mut Words<'a>) -> Result<Question<'a>, Fault> {
    let name = words.word()?;
    match verb {
        "length" => Ok(Question::Length(name)),
        "bytes" => read_part(name, words),
        "same" => Ok(Question::Same(name, words.word()?)),
        "missing" => Ok(Question::Missing(name)),
        "machine" => Ok(Question::Machine(name, words.number()?)),
        _ => Err(Fault::Line),
    }
}

fn read_part<'a>(name: &'a str, words: &mut Words<'a>) -> Result<Question<'a>, Fault> {
    let at = words.size()?;
    let count = words.size()?;
    Ok(Question::Part(name, at, count))
}

// Which calls fail.
fn read_side<'a>(alloc: Global, verb: &str, mut words: Words<'a>) -> Result<Given<'a>, Fault> {
    let side = side_of(words.word()?)?;
    match verb {
        "failing" => Ok(Given::Failing(side, words.numbers(alloc)?)),
        _ => {
            words.end()?;
            Ok(Given::Plain(side))
        }
    }
}

fn side_of(word: &str) -> Result<Side, Fault> {
    match word {
        "store" => Ok(Side::Store),
        "sink" => Ok(Side::Sink),
        _ => Err(Fault::Line),
    }
}

// What a file is, or what is changed of it.
fn read_file<'a>(alloc: Global, verb: &str, mut words: Words<'a>) -> Result<Given<'a>, Fault> {
    let name = words.word()?;
    match verb {
        "file" => Ok(Given::File(name, words.bytes(alloc)?)),
        "thin" => Ok(Given::Thin(name, words.bytes(alloc)?)),
        "put" => {
            let at = words.size()?;
            Ok(Given::Put(name, at, words.bytes(alloc)?))
        }
        "repeat" => {
            let at = words.size()?;
            let count = words.number()?;
            Ok(Given::Repeat(name, at, count, words.bytes(alloc)?))
        }
        "zeros" => {
            let len = words.size()?;
            words.end()?;
            Ok(Given::Zeros(name, len))
        }
        "cut" => {
            let len = words.size()?;
            words.end()?;
            Ok(Given::Cut(name, len))
        }
        _ => Err(Fault::Line),
    }
}

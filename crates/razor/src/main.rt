//! The program: the words of the command line, real files, and standard output.
#![tactic(auto)]

use rz_core::status::{Status, number};
use rz_core::tool::run_tool;
use rz_num::Text;
use rz_outside::{DirStore, OutSink};
use std::alloc::{AllocError, Global};
use std::process::ExitCode;
use std::{env, io};

/// Where the runtime gives no words.
const NO_WORDS: u8 = 100;

// The words after the program's name.
fn words(rt: &HostRuntime, alloc: Global) -> io::Result<Vec<Text>> {
    let mut words = Vec::new(alloc);
    for arg in env::args(rt)?.skip(1) {
        let Ok(word) = Text::from_slice(alloc, arg.as_str()) else {
            return Err(io::Error::from(AllocError));
        };
        words.push(word)?;
    }
    Ok(words)
}

fn main(rt: HostRuntime) -> ExitCode {
    let alloc = rt.alloc();
    let words = match words(&rt, alloc) {
        Ok(words) => words,
        Err(e) if e.kind() == io::ErrorKind::OutOfMemory => {
            return ExitCode::from(number(&Status::OutOfMemory));
        }
        Err(_) => return ExitCode::from(NO_WORDS),
    };
    let mut store = DirStore::new(alloc, &rt);
    let mut out = OutSink::new(&rt);
    let status = run_tool(alloc, &words, &mut store, &mut out);
    ExitCode::from(number(&status))
}

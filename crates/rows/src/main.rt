//! Worked command lines as data: a script of cases on standard input, and what razor answers on standard output.
#![tactic(auto)]

mod bench;
mod case;
mod command;
mod draft;
mod fault;
mod machine;
mod script;
mod text;
mod thin;
mod words;

use script::Script;
use std::alloc::{AllocError, Global};
use std::io::{self, BufRead, BufReader, BufWriter, Write};

fn run(rt: &(impl Input + Print + AllocGlobal)) -> io::Result<()> {
    let mut out = BufWriter::new(rt.alloc(), io::writer(rt))?;
    answer_all(rt, &mut out)?;
    out.flush()
}

// Follows the script that is read, and writes each line with its answer.
fn answer_all<W: Write>(rt: &(impl Input + AllocGlobal), out: &mut W) -> io::Result<()> {
    let alloc = rt.alloc();
    let mut script = Script::new(alloc);
    for line in BufReader::new(alloc, rt.reader())?.lines(alloc) {
        answer(alloc, &mut script, line?.as_str(), out)?;
    }
    Ok(())
}

fn answer<W: Write>(alloc: Global, script: &mut Script, line: &str, out: &mut W) -> io::Result<()> {
    match script.answer(alloc, line) {
        Ok(answer) => out.write_all(answer.as_slice()),
        Err(_) => Err(io::Error::from(AllocError)),
    }
}

fn main(rt: HostRuntime) -> io::Result<()> {
    run(&rt)
}

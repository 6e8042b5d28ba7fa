//! The store and the sink that razor runs over.

ghost use Rattle.rz_outside.specs.Entries.{HasDistinctNames};

use crate::draft::Draft;
use crate::fault::Fault;
use crate::text::{add_line, add_put};
use rz_core::status::number;
use rz_core::tool::run_tool;
use rz_num::{Bytes, OutOfMemory, Text};
use rz_outside::{MemSink, MemStore, PlainSink, PlainStore, Sink, Store, has_distinct_names};
use std::alloc::Global;

#[derive(Drop)]
enum Files {
    Failing(MemStore),
    Plain(PlainStore),
}

impl Files {
    // The calls of a store that fail are listed; of a plain one none does.
    fn new(
        alloc: Global,
        files: Vec<(Text, Bytes)>,
        failing: Option<Vec<u64>>,
    ) -> Result<Files, OutOfMemory>
        requires { HasDistinctNames files.items }
    {
        match failing {
            Some(failing) => Ok(Files::Failing(MemStore::new(alloc, files, failing)?)),
            None => Ok(Files::Plain(PlainStore::new(alloc, files)?)),
        }
    }
}

#[derive(Drop)]
enum Output {
    Failing(MemSink),
    Plain(PlainSink),
}

impl Output {
    fn new(alloc: Global, failing: Option<Vec<u64>>) -> Result<Output, OutOfMemory> {
        match failing {
            Some(failing) => Ok(Output::Failing(MemSink::new(alloc, failing)?)),
            None => Ok(Output::Plain(PlainSink::new(alloc))),
        }
    }
}

/// A store and a sink.
#[derive(Drop)]
pub struct Bench {
    files: Files,
    output: Output,
}

impl Bench {
    pub fn new(alloc: Global, draft: Draft) -> Result<Bench, Fault> {
        let Draft { files, store, sink } = draft;
        if !has_distinct_names(files.as_slice()) {
            return Err(Fault::Line);
        }
        let output = Output::new(alloc, sink)?;
        let files = Files::new(alloc, files, store)?;
        Ok(Bench { files, output })
    }

    /// What a name holds.
    pub fn get(&self, name: &str) -> Option<&[u8]> {
        match &self.files {
            Files::Failing(store) => store.get(name),
            Files::Plain(store) => store.get(name),
        }
    }

    /// Runs razor on the words of a command line, and adds its status and the text that it put.
    pub fn run(
        &mut self,
        alloc: Global,
        words: &Vec<Text>,
        to: &mut Bytes,
    ) -> Result<(), OutOfMemory> {
        let before = self.text().len();
        let status = match &mut self.files {
            Files::Failing(store) => run_into(alloc, words, store, &mut self.output),
            Files::Plain(store) => run_into(alloc, words, store, &mut self.output),
        };
        add_line(to, format!(in alloc; "status {status}")?.as_str())?;
        add_put(to, self.text().get(before..).unwrap_or(&[]))
    }

    // All that the sink has got.
    fn text(&self) -> &[u8] {
        match &self.output {
            Output::Failing(sink) => sink.as_slice(),
            Output::Plain(sink) => sink.as_slice(),
        }
    }
}

fn run_into<S: Store>(alloc: Global, words: &Vec<Text>, store: &mut S, output: &mut Output) -> u8 {
    match output {
        Output::Failing(sink) => run_over(alloc, words, store, sink),
        Output::Plain(sink) => run_over(alloc, words, store, sink),
    }
}

// The number of razor's status. It has no clause, so that the call's large contract is read here alone.
fn run_over<S: Store, K: Sink>(
    alloc: Global,
    words: &Vec<Text>,
    store: &mut S,
    sink: &mut K,
) -> u8 {
    number(&run_tool(alloc, words, store, sink))
}

//! A case of the script.

use crate::bench::Bench;
use crate::command::{Command, Question};
use crate::draft::Draft;
use crate::fault::Fault;
use crate::machine::add_run;
use crate::text::{add_bytes, add_line};
use rz_num::{Bytes, Text};
use std::alloc::Global;
use std::mem;

/// A case: what it begins with, and from the first run on the store and the sink.
#[derive(Drop)]
pub enum Case {
    Draft(Draft),
    Bench(Bench),
}

impl Case {
    pub fn new(alloc: Global) -> Case {
        Case::Draft(Draft::new(alloc))
    }

    /// Follows a command, and adds its answer. What a case begins with is refused after the first run.
    pub fn follow(
        &mut self,
        alloc: Global,
        command: Command<'_>,
        to: &mut Bytes,
    ) -> Result<(), Fault> {
        match command {
            Command::Case => {
                *self = Case::new(alloc);
                Ok(())
            }
            Command::Given(given) => match self {
                Case::Draft(draft) => draft.give(alloc, given),
                Case::Bench(_) => Err(Fault::Line),
            },
            Command::Run(words) => self.run(alloc, &words, to),
            Command::Question(question) => self.tell(alloc, question, to),
        }
    }

    fn run(&mut self, alloc: Global, words: &Vec<Text>, to: &mut Bytes) -> Result<(), Fault> {
        let mut bench = self.take_bench(alloc)?;
        let done = bench.run(alloc, words, to);
        *self = Case::Bench(bench);
        Ok(done?)
    }

    // The store and the sink, which a first run makes of the draft.
    fn take_bench(&mut self, alloc: Global) -> Result<Bench, Fault> {
        match mem::replace(self, Case::new(alloc)) {
            Case::Draft(draft) => Bench::new(alloc, draft),
            Case::Bench(bench) => Ok(bench),
        }
    }

    // Adds the answer to a question.
    fn tell(&self, alloc: Global, question: Question<'_>, to: &mut Bytes) -> Result<(), Fault> {
        match question {
            Question::Length(name) => add_length(alloc, to, self.file(name)?),
            Question::Part(name, at, count) => add_part(alloc, to, self.file(name)?, at, count),
            Question::Same(one, other) => add_truth(to, self.file(one)? == self.file(other)?),
            Question::Missing(name) => add_truth(to, self.get(name).is_none()),
            Question::Machine(name, steps) => add_run(alloc, to, self.file(name)?, steps),
        }
    }

    fn get(&self, name: &str) -> Option<&[u8]> {
        match self {
            Case::Draft(draft) => draft.get(name),
            Case::Bench(bench) => bench.get(name),
        }
    }

    fn file(&self, name: &str) -> Result<&[u8], Fault> {
        self.get(name).ok_or(Fault::Line)
    }
}

fn add_length(alloc: Global, to: &mut Bytes, file: &[u8]) -> Result<(), Fault> {
    let len = file.len();
    add_line(to, format!(in alloc; "{len}")?.as_str())?;
    Ok(())
}

fn add_part(
    alloc: Global,
    to: &mut Bytes,
    file: &[u8],
    at: usize,
    count: usize,
) -> Result<(), Fault> {
    if file.len() < at || file.len() - at < count {
        return Err(Fault::Line);
    }
    add_bytes(alloc, to, &file[at..at + count])?;
    Ok(())
}

fn add_truth(to: &mut Bytes, is: bool) -> Result<(), Fault> {
    add_line(to, if is { "yes" } else { "no" })?;
    Ok(())
}

//! Follows a script, line by line.

use crate::case::Case;
use crate::command::read_command;
use crate::fault::Fault;
use crate::text::add_line;
use rz_num::{Bytes, OutOfMemory};
use std::alloc::Global;

/// The number of the last line, from 1, and the case that it belongs to.
#[derive(Drop)]
pub struct Script {
    line: u64,
    case: Case,
}

impl Script {
    /// Before the first line.
    pub fn new(alloc: Global) -> Script {
        Script {
            line: 0,
            case: Case::new(alloc),
        }
    }

    /// Follows a line: the line again, and its answer behind it. An empty line and a comment have none.
    pub fn answer(&mut self, alloc: Global, line: &str) -> Result<Bytes, OutOfMemory> {
        self.line = self.line.saturating_add(1);
        let mut answer = Bytes::new(alloc);
        if line.is_empty() || line.starts_with('#') {
            return Ok(answer);
        }
        if line.starts_with("case ") {
            answer.push(b'\n')?;
        }
        answer.push_all(line.as_bytes())?;
        answer.push(b'\n')?;
        match self.follow(alloc, line, &mut answer) {
            Ok(()) => Ok(answer),
            Err(Fault::Line) => {
                add_bad_line(alloc, &mut answer, self.line)?;
                Ok(answer)
            }
            Err(Fault::OutOfMemory) => Err(OutOfMemory),
        }
    }

    fn follow(&mut self, alloc: Global, line: &str, to: &mut Bytes) -> Result<(), Fault> {
        let command = read_command(alloc, line)?;
        self.case.follow(alloc, command, to)
    }
}

fn add_bad_line(alloc: Global, to: &mut Bytes, number: u64) -> Result<(), OutOfMemory> {
    add_line(to, format!(in alloc; "bad line {number}")?.as_str())
}

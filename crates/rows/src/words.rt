//! Words of a line: names, numbers and hexadecimal digits.

use crate::fault::Fault;
use hex::FromHexError;
use rz_num::{Bytes, Text};
use std::alloc::Global;
use std::str::SplitWhitespace;

/// The words of a line that are not read yet.
#[derive(Drop)]
pub struct Words<'a> {
    left: SplitWhitespace<'a>,
}

impl<'a> Words<'a> {
    /// The words of a whole line.
    pub fn new(line: &'a str) -> Words<'a> {
        Words {
            left: line.split_whitespace(),
        }
    }

    /// The next word.
    pub fn word(&mut self) -> Result<&'a str, Fault> {
        self.left.next().ok_or(Fault::Line)
    }

    /// The next word as a decimal number.
    pub fn number(&mut self) -> Result<u64, Fault> {
        number(self.word()?)
    }

    /// The next word as a number of bytes.
    pub fn size(&mut self) -> Result<usize, Fault> {
        Ok(self.number()? as usize)
    }

    /// Refuses a further word.
    pub fn end(mut self) -> Result<(), Fault> {
        match self.left.next() {
            None => Ok(()),
            Some(_) => Err(Fault::Line),
        }
    }

    /// The words as texts.
    pub fn texts(self, alloc: Global) -> Result<Vec<Text>, Fault> {
        let mut texts = Vec::new(alloc);
        for word in self.left {
            texts.push(Text::from_slice(alloc, word)?)?;
        }
        Ok(texts)
    }

    /// The words as decimal numbers.
    pub fn numbers(self, alloc: Global) -> Result<Vec<u64>, Fault> {
        let mut numbers = Vec::new(alloc);
        for word in self.left {
            numbers.push(number(word)?)?;
        }
        Ok(numbers)
    }

    /// The bytes of words of hexadecimal digits.
    pub fn bytes(self, alloc: Global) -> Result<Bytes, Fault> {
        let mut bytes = Bytes::new(alloc);
        for word in self.left {
            match hex::decode(alloc, word) {
                Ok(part) => bytes.push_all(part.as_slice())?,
                Err(FromHexError::OutOfMemory) => return Err(Fault::OutOfMemory),
                Err(_) => return Err(Fault::Line),
            }
        }
        Ok(bytes)
    }
}

fn number(word: &str) -> Result<u64, Fault> {
    match word.parse::<u64>() {
        Ok(number) => Ok(number),
        Err(_) => Err(Fault::Line),
    }
}

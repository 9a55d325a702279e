//! Texts that are told line by line, and changed.

use pc_alone::Fault;
use std::alloc::Global;

/// A text.
#[derive(Drop)]
pub struct Text {
    bytes: Vec<u8>,
}

impl Text {
    /// A text without bytes.
    pub fn new(alloc: Global) -> Text {
        Text {
            bytes: Vec::new(alloc),
        }
    }

    /// The bytes.
    pub fn into_bytes(self) -> Vec<u8> {
        self.bytes
    }

    /// Adds bytes at the end.
    pub fn push(&mut self, bytes: &[u8]) -> Result<(), Fault> {
        Ok(self.bytes.extend_from_slice(bytes)?)
    }

    /// Adds a line at the end.
    pub fn push_line(&mut self, line: &str) -> Result<(), Fault> {
        self.push(line.as_bytes())?;
        Ok(self.bytes.push(b'\n')?)
    }

    /// Makes a change that a directive tells.
    pub fn change(&mut self, alloc: Global, change: &str) -> Result<(), Fault> {
        if change == "without the last line feed" {
            self.pop_line_feed()
        } else if let Some(bytes) = change.strip_prefix("bytes ") {
            self.push_bytes(bytes)
        } else if let Some(len) = change.strip_prefix("padded to ") {
            self.pad(len.parse()?)
        } else if let Some(edit) = change.strip_prefix("line ") {
            self.edit(alloc, edit)
        } else if let (count, Some(line)) = parted(change, " times: ") {
            self.push_times(count.parse()?, line)
        } else {
            Err(Fault::Directive)
        }
    }

    /// Takes the line feed away that the text ends with.
    fn pop_line_feed(&mut self) -> Result<(), Fault> {
        match self.bytes.pop() {
            Some(b'\n') => Ok(()),
            _ => Err(Fault::Change),
        }
    }

    /// Adds bytes, told in hexadecimal and parted by spaces.
    fn push_bytes(&mut self, bytes: &str) -> Result<(), Fault> {
        for byte in bytes.split(' ') {
            self.bytes.push(u8::from_str_radix(byte, 16)?)?;
        }
        Ok(())
    }

    /// Adds spaces at the end, up to so many bytes.
    fn pad(&mut self, len: usize) -> Result<(), Fault> {
        if len < self.bytes.len() {
            return Err(Fault::Change);
        }
        Ok(self.bytes.resize(len, b' ')?)
    }

    /// Adds the same line so many times.
    fn push_times(&mut self, count: usize, line: &str) -> Result<(), Fault> {
        for _ in 0..count {
            self.push_line(line)?;
        }
        Ok(())
    }

    /// Changes the line whose number comes first.
    fn edit(&mut self, alloc: Global, edit: &str) -> Result<(), Fault> {
        let (place, line) = parted(edit, ": ");
        let (number, how) = parted(place, " ");
        let number = number.parse()?;
        match (how, line) {
            (None, Some(line)) => self.rewrite(alloc, number, false, Some(line)),
            (Some("followed by"), Some(line)) => self.rewrite(alloc, number, true, Some(line)),
            (Some("left out"), None) => self.rewrite(alloc, number, false, None),
            _ => Err(Fault::Directive),
        }
    }

    /// Puts a line in place of the one of this number, counted from 1, or behind it where it stays.
    fn rewrite(
        &mut self,
        alloc: Global,
        number: usize,
        stays: bool,
        other: Option<&str>,
    ) -> Result<(), Fault> {
        let mut changed = Text::new(alloc);
        let mut line: usize = 1;
        for byte in self.bytes.as_slice() {
            if stays || line != number {
                changed.bytes.push(*byte)?;
            }
            if *byte == b'\n' {
                if line == number
                    && let Some(other) = other
                {
                    changed.push_line(other)?;
                }
                line = line.saturating_add(1);
            }
        }
        if line <= number {
            return Err(Fault::Change);
        }
        *self = changed;
        Ok(())
    }
}

/// What stands before the first of these marks, and what stands after it.
pub fn parted<'a>(text: &'a str, mark: &str) -> (&'a str, Option<&'a str>) {
    match text.split_once(mark) {
        Some((front, rest)) => (front, Some(rest)),
        None => (text, None),
    }
}

//! Blocks: a title, what is called, the texts that it is about, and what it prints.

use crate::call::{Call, Outcome};
use crate::files::bytes_of;
use crate::text::{Text, parted};
use pc_alone::Fault;
use pc_ports::Store;
use std::alloc::Global;
use std::mem;

/// A call and what has to come of it.
#[derive(Drop)]
pub struct Case {
    /// What the case shows.
    pub title: String,
    /// The line of the title in its file, counted from 1.
    pub line: usize,
    /// The call.
    pub call: Call,
    /// What has to come of it.
    pub wanted: Outcome,
}

/// What a text is.
#[derive(Drop)]
enum Role {
    /// There is no text yet.
    Missing,
    /// The text of the file of this name.
    File(String),
    /// What is printed, beside this status.
    Output(u8),
}

/// A case of which some lines were read.
#[derive(Drop)]
pub struct Block {
    title: String,
    line: usize,
    call: Call,
    role: Role,
    text: Text,
}

impl Block {
    /// The block that the title on this line begins.
    pub fn new(alloc: Global, line: usize, title: &str) -> Result<Block, Fault> {
        Ok(Block {
            title: String::from_str(alloc, title)?,
            line,
            call: Call::new(alloc),
            role: Role::Missing,
            text: Text::new(alloc),
        })
    }

    /// Takes the next line: the words of the program, the name of a call by itself, a directive, or
    /// a line of the text that was begun last.
    pub fn take<S: Store>(
        &mut self,
        alloc: Global,
        store: &mut S,
        line: &str,
    ) -> Result<(), Fault> {
        if let Some(words) = line.strip_prefix("$") {
            self.call.say(alloc, words)
        } else if let Some(name) = line.strip_prefix("> ") {
            self.call.name(alloc, name)
        } else if let Some(directive) = line.strip_prefix("-- ") {
            self.follow(alloc, store, directive)
        } else if let Role::Missing = self.role {
            Err(Fault::Textless)
        } else {
            self.text.push_line(line)
        }
    }

    /// Follows a directive.
    fn follow<S: Store>(
        &mut self,
        alloc: Global,
        store: &mut S,
        directive: &str,
    ) -> Result<(), Fault> {
        let (head, base) = parted(directive, " is ");
        if let Some(role) = role_of(alloc, head)? {
            self.begin(alloc, role)?;
            return self.copy(alloc, store, base);
        }
        if self.call.set(directive)? {
            return Ok(());
        }
        if let Role::Missing = self.role {
            return Err(Fault::Textless);
        }
        self.text.change(alloc, directive)
    }

    /// Puts the text away and begins another one.
    fn begin(&mut self, alloc: Global, role: Role) -> Result<(), Fault> {
        let text = mem::replace(&mut self.text, Text::new(alloc));
        match mem::replace(&mut self.role, role) {
            Role::Missing => Ok(()),
            Role::File(name) => self.call.hold(name, text),
            Role::Output(_) => Err(Fault::Unprinted),
        }
    }

    /// Copies a file of data into the text where one is named, and changes it where a change stands
    /// after a comma.
    fn copy<S: Store>(
        &mut self,
        alloc: Global,
        store: &mut S,
        base: Option<&str>,
    ) -> Result<(), Fault> {
        let Some(base) = base else {
            return Ok(());
        };
        let (name, change) = parted(base, ", ");
        self.text.push(bytes_of(alloc, store, name)?.as_slice())?;
        match change {
            Some(change) => self.text.change(alloc, change),
            None => Ok(()),
        }
    }

    /// The case, once all lines were taken.
    pub fn into_case(self) -> Result<Case, Fault> {
        let Role::Output(status) = self.role else {
            return Err(Fault::Unprinted);
        };
        Ok(Case {
            title: self.title,
            line: self.line,
            call: self.call,
            wanted: Outcome {
                status,
                text: self.text.into_bytes(),
            },
        })
    }
}

/// What the text is that the head of a directive begins, where it begins one.
fn role_of(alloc: Global, head: &str) -> Result<Option<Role>, Fault> {
    match parted(head, " ") {
        ("prints", Some(status)) => Ok(Some(Role::Output(status.parse()?))),
        (_, Some(_)) => Ok(None),
        (name, None) => Ok(Some(Role::File(String::from_str(alloc, name)?))),
    }
}

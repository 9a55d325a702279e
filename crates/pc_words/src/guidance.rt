//! What is printed for words that are no command.

use crate::asking::matches;
use crate::command::precond_command;
use crate::help;
use clap::Error;
use clap::error::ErrorKind;
use pc_text::{NoMemory, Text};
use std::alloc::{AllocError, Global};

/// What is printed for words that are no command: where they ask for help, the help that `clap`
/// makes; else its help of the whole command, and what is wrong with the words.
pub fn usage(alloc: Global, words: &[String]) -> Result<Text, NoMemory> {
    match matches(alloc, words) {
        Ok(_) => help_and(alloc, help::NO_COMMAND),
        Err(error) => usage_by(alloc, &error),
    }
}

/// What is printed where `clap` has no matches.
fn usage_by(alloc: Global, error: &Error) -> Result<Text, NoMemory> {
    match error.kind() {
        ErrorKind::OutOfMemory => Err(NoMemory),
        ErrorKind::DisplayHelp => text_of(alloc, told(alloc, error)?.as_str()),
        _ => help_and(alloc, told(alloc, error)?.as_str()),
    }
}

/// The text that `clap` has for an error.
fn told(alloc: Global, error: &Error) -> Result<String, NoMemory> {
    match format!(in alloc; "{error}") {
        Ok(text) => Ok(text),
        Err(_) => Err(NoMemory),
    }
}

/// This text alone.
fn text_of(alloc: Global, told: &str) -> Result<Text, NoMemory> {
    let mut text = Text::new(alloc);
    text.push_all(told.as_bytes())?;
    Ok(text)
}

/// The help of the whole command, and what is told behind it.
fn help_and(alloc: Global, told: &str) -> Result<Text, NoMemory> {
    match whole_help(alloc) {
        Ok(help) => {
            let mut text = text_of(alloc, help.as_str())?;
            text.push(b'\n')?;
            text.push_all(told.as_bytes())?;
            Ok(text)
        }
        Err(_) => Err(NoMemory),
    }
}

/// The help of the whole command.
fn whole_help(alloc: Global) -> Result<String, AllocError> {
    precond_command(alloc)?.render_help()
}

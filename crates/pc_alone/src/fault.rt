//! What is wrong with a file of cases.

use pc_ports::NoMemory;
use pc_rows::RowsFault;
use std::alloc::{AllocError, AllocFailed};
use std::num::ParseIntError;

/// Why a file of cases is not understood.
#[derive(Clone, Copy)]
pub enum Fault {
    /// A file is not there, is too long, or is no text.
    Unreadable,
    /// A line stands outside of blocks and is no title.
    Outside,
    /// The last line has no line feed.
    Unended,
    /// A block ends without a status and a text, or goes on after them.
    Unprinted,
    /// A block calls nothing, or calls twice.
    Words,
    /// A line or a change comes before any text.
    Textless,
    /// A directive is not known.
    Directive,
    /// A number is none, or is out of range.
    Number,
    /// A text is not as the change needs it.
    Change,
    /// There was no memory.
    Memory,
}

impl Fault {
    /// The reason in words.
    pub fn told(self) -> &'static str {
        match self {
            Fault::Unreadable => "a file that cannot be read",
            Fault::Outside => "a line outside of blocks",
            Fault::Unended => "the last line has no line feed",
            Fault::Unprinted => "a block has one `-- prints`, which comes last",
            Fault::Words => "a block has one line `$` or `>`",
            Fault::Textless => "no text was begun",
            Fault::Directive => "an unknown directive",
            Fault::Number => "a number that is out of range",
            Fault::Change => "a change that does not fit the text",
            Fault::Memory => "no memory",
        }
    }
}

impl From<AllocError> for Fault {
    fn from(_fault: AllocError) -> Fault {
        Fault::Memory
    }
}

impl<T: Drop> From<AllocFailed<T>> for Fault {
    fn from(_fault: AllocFailed<T>) -> Fault {
        Fault::Memory
    }
}

impl From<NoMemory> for Fault {
    fn from(_fault: NoMemory) -> Fault {
        Fault::Memory
    }
}

impl From<pc_rows::NoMemory> for Fault {
    fn from(_fault: pc_rows::NoMemory) -> Fault {
        Fault::Memory
    }
}

impl From<pc_text::NoMemory> for Fault {
    fn from(_fault: pc_text::NoMemory) -> Fault {
        Fault::Memory
    }
}

impl From<RowsFault> for Fault {
    fn from(fault: RowsFault) -> Fault {
        match fault {
            RowsFault::Full => Fault::Number,
            RowsFault::NoMemory => Fault::Memory,
        }
    }
}

impl From<ParseIntError> for Fault {
    fn from(_fault: ParseIntError) -> Fault {
        Fault::Number
    }
}

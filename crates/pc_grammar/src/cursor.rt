//! A cursor over symbols. Where the descent stops at a fault, the cursor stands at the symbol at
//! fault, or at the end of the text: so no error carries a place.

ghost use Rattle.std.specs.Prelude.{◌≡◌, ◌+◌, ◌≤◌, length, OnOk, IfErr};
ghost use Rattle.pc_grammar.specs.Combinators.{starts};
ghost use Rattle.pc_grammar.specs.Terminals.{among, the, one, one_of, has};
ghost use Rattle.pc_grammar.specs.Terminals as spec;
ghost use Rattle.pc_grammar.specs.Expressions.{signs};
ghost use Rattle.pc_grammar.specs.Statements.{begins_stmt, operators};
ghost use Rattle.pc_grammar.specs.Reads.{Reads};

use crate::symbol::Symbol;
use pc_language::Terminal;
use std::alloc::AllocError;

/// Why the descent has no tree.
#[derive(Clone, Copy, Debug, PartialEq, Eq)]
pub enum Stop {
    /// There was no memory for the tree.
    NoMemory,
    /// The symbol at the cursor, or the end of the text, may not stand there.
    Syntax,
}

impl From<AllocError> for Stop {
    ghost use Rattle.std.specs.Prelude.{◌≡◌};
    ghost use Rattle.pc_grammar.specs.declared.cursor.Stop.TheVariants.{NoMemory};

    ghost from_gives = { λ _ e. e ≡ NoMemory };

    fn from(_: AllocError) -> Stop {
        Stop::NoMemory
    }
}

/// What is left to be read.
#[derive(Drop)]
pub struct Cursor<'a> {
    pub rest: &'a [Symbol],
}

impl<'a> Cursor<'a> {
    /// Whether the next symbol stands for this terminal.
    pub fn sees(&self, terminal: Terminal) -> bool
        ensures { result ≡ starts (the terminal) self.now.rest.now }
    {
        match self.rest.first() {
            Some(s) => code(s.terminal) == code(terminal),
            None => false,
        }
    }

    /// Takes the next symbol, which stands for this terminal.
    pub fn take(&mut self, terminal: Terminal) -> Result<Symbol, Stop>
        ensures reads { Reads (one terminal self.old.rest.now) result self.new.rest.now }
        ensures shorter { OnOk result (length self.new.rest.now + 1 ≡ length self.old.rest.now) }
        ensures shrinks { length self.new.rest.now ≤ length self.old.rest.now }
        ensures fault { IfErr result (λ e. e ≡ Stop.Syntax) }
    {
        match self.rest {
            [s, rest @ ..] if code(s.terminal) == code(terminal) => {
                self.rest = rest;
                Ok(*s)
            }
            _ => Err(Stop::Syntax),
        }
    }

    /// Whether a `+` or a `-` comes next.
    pub fn sees_sign(&self) -> bool
        ensures { result ≡ starts (among signs) self.now.rest.now }
    {
        match self.rest.first() {
            Some(s) => is_sign(s.terminal),
            None => false,
        }
    }

    /// Takes a `+` or a `-`.
    pub fn take_sign(&mut self) -> Result<Symbol, Stop>
        ensures reads { Reads (one_of signs self.old.rest.now) result self.new.rest.now }
        ensures shorter { OnOk result (length self.new.rest.now + 1 ≡ length self.old.rest.now) }
        ensures shrinks { length self.new.rest.now ≤ length self.old.rest.now }
        ensures fault { IfErr result (λ e. e ≡ Stop.Syntax) }
    {
        match self.rest {
            [s, rest @ ..] if is_sign(s.terminal) => {
                self.rest = rest;
                Ok(*s)
            }
            _ => Err(Stop::Syntax),
        }
    }

    /// Takes one of the six signs of comparisons.
    pub fn take_operator(&mut self) -> Result<Symbol, Stop>
        ensures reads { Reads (one_of operators self.old.rest.now) result self.new.rest.now }
        ensures shorter { OnOk result (length self.new.rest.now + 1 ≡ length self.old.rest.now) }
        ensures shrinks { length self.new.rest.now ≤ length self.old.rest.now }
        ensures fault { IfErr result (λ e. e ≡ Stop.Syntax) }
    {
        match self.rest {
            [s, rest @ ..] if is_operator(s.terminal) => {
                self.rest = rest;
                Ok(*s)
            }
            _ => Err(Stop::Syntax),
        }
    }

    /// Whether a statement begins here.
    pub fn begins_stmt(&self) -> bool
        ensures { result ≡ starts (among begins_stmt) self.now.rest.now }
    {
        match self.rest.first() {
            Some(s) => is_first_of_stmt(s.terminal),
            None => false,
        }
    }
}

/// A number for each terminal. Terminals are compared by it, as in the definitions.
fn code(terminal: Terminal) -> u8
    ensures { result ≡ spec.code terminal }
{
    match terminal {
        Terminal::Name => 0,
        Terminal::Number => 1,
        Terminal::Entry => 2,
        Terminal::Var => 3,
        Terminal::If => 4,
        Terminal::Else => 5,
        Terminal::While => 6,
        Terminal::Try => 7,
        Terminal::Assert => 8,
        Terminal::Assume => 9,
        Terminal::OpenParen => 10,
        Terminal::CloseParen => 11,
        Terminal::OpenBrace => 12,
        Terminal::CloseBrace => 13,
        Terminal::OpenBracket => 14,
        Terminal::CloseBracket => 15,
        Terminal::Comma => 16,
        Terminal::Semicolon => 17,
        Terminal::Assign => 18,
        Terminal::Equal => 19,
        Terminal::Unequal => 20,
        Terminal::Less => 21,
        Terminal::AtMost => 22,
        Terminal::Greater => 23,
        Terminal::AtLeast => 24,
        Terminal::Plus => 25,
        Terminal::Minus => 26,
        Terminal::Star => 27,
        Terminal::And => 28,
    }
}

fn is_sign(terminal: Terminal) -> bool
    ensures { result ≡ has signs terminal }
{
    matches!(terminal, Terminal::Plus | Terminal::Minus)
}

fn is_operator(terminal: Terminal) -> bool
    ensures { result ≡ has operators terminal }
{
    matches!(
        terminal,
        Terminal::Less
            | Terminal::AtMost
            | Terminal::Greater
            | Terminal::AtLeast
            | Terminal::Equal
            | Terminal::Unequal
    )
}

fn is_first_of_stmt(terminal: Terminal) -> bool
    ensures { result ≡ has begins_stmt terminal }
{
    matches!(
        terminal,
        Terminal::Name | Terminal::If | Terminal::While | Terminal::Assert | Terminal::Assume
    )
}

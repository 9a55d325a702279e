//! The limits on nesting and on lengths, as counts over the symbols, apart from the grammar. They
//! bound the recursion of the descent, which reads no further than the first symbol past a limit.

ghost use Rattle.std.specs.Prelude.{◌≡◌, ◌+◌, ◌<◌, length, IfSome};
ghost use Rattle.pc_grammar.specs.Combinators.{starts};
ghost use Rattle.pc_grammar.specs.Terminals.{the, has};
ghost use Rattle.pc_grammar.specs.Limits as spec;

use crate::fault::ParseFault;
use crate::symbol::Symbol;
use pc_language::{BRACES, COMPARISONS, SIGNS, Terminal};

/// The most processes of a source.
pub const PROCESSES: usize = 4;

/// What was counted in the symbols before one.
#[derive(Clone, Copy)]
pub struct Counts {
    /// The open braces.
    pub braces: usize,
    /// The signs of the present expression.
    pub signs: usize,
    /// The `&&` of the present conjunction.
    pub ands: usize,
    /// The blocks directly in the outermost braces, where their number is limited.
    pub blocks: usize,
    /// Whether the symbol directly before is a keyword: a `(` here encloses no expression.
    pub behind_keyword: bool,
}

/// A symbol that is past a limit: its index, and the fault with its place.
#[derive(Clone, Copy)]
pub struct Past {
    pub at: usize,
    pub fault: ParseFault,
}

/// Whether the terminal is one of the eight keywords.
fn is_keyword(terminal: Terminal) -> bool
    ensures { result ≡ has spec.keywords terminal }
{
    matches!(
        terminal,
        Terminal::Entry
            | Terminal::Var
            | Terminal::If
            | Terminal::Else
            | Terminal::While
            | Terminal::Try
            | Terminal::Assert
            | Terminal::Assume
    )
}

/// Whether the terminal may stand in an expression.
fn is_of_expression(terminal: Terminal) -> bool
    ensures { result ≡ has spec.of_expressions terminal }
{
    matches!(
        terminal,
        Terminal::Name
            | Terminal::Number
            | Terminal::OpenParen
            | Terminal::CloseParen
            | Terminal::Plus
            | Terminal::Minus
            | Terminal::Star
    )
}

/// Whether a choice comes next.
fn begins_choice(rest: &[Symbol]) -> bool
    ensures { result ≡ starts (the Terminal.OpenBracket) rest.now }
{
    match rest.first() {
        Some(next) => matches!(next.terminal, Terminal::OpenBracket),
        None => false,
    }
}

/// Whether a terminal before these symbols is a counted sign of an expression.
fn is_sign(terminal: Terminal, behind_keyword: bool, rest: &[Symbol]) -> bool
    ensures { result ≡ spec.is_sign terminal behind_keyword rest.now }
{
    match terminal {
        Terminal::Plus => !begins_choice(rest),
        Terminal::Minus | Terminal::Star => true,
        Terminal::OpenParen => !behind_keyword,
        _ => false,
    }
}

/// One more, or nothing where the limit is reached.
fn one_more(count: usize, limit: usize) -> Option<usize>
    ensures { result ≡ spec.one_more count limit }
{
    if count < limit { Some(count + 1) } else { None }
}

/// The open braces after one more symbol.
fn braces_after(braces: usize, terminal: Terminal) -> Option<usize>
    ensures { result ≡ spec.braces_after braces terminal }
{
    match terminal {
        Terminal::OpenBrace => one_more(braces, BRACES),
        Terminal::CloseBrace => Some(braces.saturating_sub(1)),
        _ => Some(braces),
    }
}

/// The signs of the present expression after one more symbol: it ends at each symbol that cannot
/// stand in one.
fn signs_after(signs: usize, is_sign: bool, terminal: Terminal) -> Option<usize>
    ensures { result ≡ spec.signs_after signs is_sign terminal }
{
    if is_sign {
        one_more(signs, SIGNS)
    } else if is_of_expression(terminal) {
        Some(signs)
    } else {
        Some(0)
    }
}

/// The `&&` of the present conjunction after one more symbol: a keyword begins another.
fn ands_after(ands: usize, terminal: Terminal) -> Option<usize>
    ensures { result ≡ spec.ands_after ands terminal }
{
    match terminal {
        Terminal::And => one_more(ands, COMPARISONS - 1),
        _ if is_keyword(terminal) => Some(0),
        _ => Some(ands),
    }
}

/// The blocks directly in the outermost braces after one more symbol, where at most so many may
/// stand there.
fn blocks_after(
    most: Option<usize>,
    blocks: usize,
    braces: usize,
    terminal: Terminal,
) -> Option<usize>
    ensures { result ≡ spec.blocks_after most blocks braces terminal }
{
    match most {
        None => Some(blocks),
        Some(most) => match terminal {
            Terminal::OpenBrace if braces == 1 => one_more(blocks, most),
            _ => Some(blocks),
        },
    }
}

/// The counts after one more symbol, which stands before these others; or its fault, where it is
/// past a limit.
fn counted(
    most: Option<usize>,
    counts: Counts,
    symbol: Symbol,
    rest: &[Symbol],
) -> Result<Counts, ParseFault>
    ensures { result ≡ spec.counted most counts symbol rest.now }
{
    let Some(braces) = braces_after(counts.braces, symbol.terminal) else {
        return Err(ParseFault::TooDeep(symbol.place));
    };
    let is_sign = is_sign(symbol.terminal, counts.behind_keyword, rest);
    let Some(signs) = signs_after(counts.signs, is_sign, symbol.terminal) else {
        return Err(ParseFault::TooLong(symbol.place));
    };
    let Some(ands) = ands_after(counts.ands, symbol.terminal) else {
        return Err(ParseFault::TooLong(symbol.place));
    };
    let Some(blocks) = blocks_after(most, counts.blocks, counts.braces, symbol.terminal) else {
        return Err(ParseFault::TooManyProcesses(symbol.place));
    };
    Ok(Counts {
        braces,
        signs,
        ands,
        blocks,
        behind_keyword: is_keyword(symbol.terminal),
    })
}

/// The first symbol that is past a limit, where at most so many blocks may stand directly in the
/// outermost braces.
pub fn first_past(most: Option<usize>, symbols: &[Symbol]) -> Option<Past>
    ensures first { result ≡ spec.first_past most spec.start symbols.now }
    ensures within { IfSome result (λ past. past.at < length symbols.now) }
{
    let mut counts = Counts {
        braces: 0,
        signs: 0,
        ands: 0,
        blocks: 0,
        behind_keyword: false,
    };
    let mut at = 0;
    let mut ahead = symbols;
    'symbols: while let [symbol, rest @ ..] = ahead {
        match counted(most, counts, *symbol, rest) {
            Ok(next) => counts = next,
            Err(fault) => return Some(Past { at, fault }),
        }
        at += 1;
        ahead = rest;
    }
    None
}

//! The tokens of a text.

ghost use Rattle.std.specs.Prelude.{◌≡◌, ◌≤◌, ◌<◌, ◌^◌, ◌-◌, ◌+◌, List, length, drop, slice_range, IfOk, IfErr, OnOk, Result};
ghost use Rattle.pc_text.specs.Lexemes as spec;
ghost use Rattle.pc_text.specs.Lex as lex;
ghost use Rattle.pc_text.specs.Places.{place_of};
ghost use Rattle.pc_text.specs.Answers.{Gives, MeansUnless, Means};
ghost use Rattle.pc_text.specs.declared.token.Token.{Token};
ghost use Rattle.pc_text.specs.declared.token.LexFault.{LexFault};

use crate::lexeme::{Form, longest};
use crate::number::natural_of;
use crate::place::place_of;
use crate::token::{Kind, LexFault, NAME_BYTES, Token};
use sqlite_items::Items;
use std::alloc::Global;

#[tactic(auto, unfolding(crate::specs::Lexemes::is_keyword))]
fn is_keyword(word: &[u8]) -> bool
    ensures { result ≡ spec.is_keyword word.now }
{
    word == b"entry".as_slice()
        || word == b"var".as_slice()
        || word == b"if".as_slice()
        || word == b"else".as_slice()
        || word == b"while".as_slice()
        || word == b"try".as_slice()
        || word == b"assert".as_slice()
        || word == b"assume".as_slice()
}

/// What the lexeme from `at` to `to` is as a token, nothing where it is none.
fn kind_at(src: &[u8], at: usize, form: Form, to: usize) -> Result<Option<Kind>, LexFault>
    requires small { length src.now < 2 ^ 32 - 1 }
    requires ordered { at ≤ to }
    requires within { to ≤ length src.now }
    ensures { result ≡ lex.kind_at (place_of src.now at) form (slice_range src.now at to) }
{
    let text = &src[at..to];
    match form {
        Form::Blank | Form::Comment => Ok(None),
        Form::Word => {
            if text.len() > NAME_BYTES {
                return Err(LexFault::NameTooLong(place_of(src, at)));
            }
            Ok(Some(if is_keyword(text) {
                Kind::Keyword
            } else {
                Kind::Name
            }))
        }
        Form::Number => match natural_of(text) {
            Some(number) => Ok(Some(Kind::Number(number as i128))),
            None => Err(LexFault::LiteralTooBig(place_of(src, at))),
        },
        Form::Sign => Ok(Some(Kind::Sign)),
    }
}

/// What stands at `at`: its token's kind, if it is a token, and its length.
fn piece_at(src: &[u8], at: usize) -> Result<(Option<Kind>, usize), LexFault>
    requires small { length src.now < 2 ^ 32 - 1 }
    requires within { at < length src.now }
    ensures value { result ≡ lex.piece_at src.now at (drop at src.now) }
    ensures within { IfOk result (λ x. (0 < x.1) × (at + x.1 ≤ length src.now)) }
{
    let rest = &src[at..];
    let Some((form, length)) = longest(rest) else {
        return Err(LexFault::BadByte(place_of(src, at), rest[0]));
    };
    let kind = kind_at(src, at, form, at + length)?;
    Ok((kind, length))
}

fn keep(
    found: &mut Items<Token>,
    kind: Option<Kind>,
    from: usize,
    to: usize,
) -> Result<(), LexFault>
    ensures ok { OnOk result (found.new ≡ lex.more found.old kind «from» to) }
    ensures err { IfErr result (λ e. e ≡ LexFault.NoMemory) }
{
    if let Some(kind) = kind {
        found.push(Token { kind, from, to })?;
    }
    Ok(())
}

fn lex(alloc: Global, src: &[u8]) -> Result<Items<Token>, LexFault>
    requires { length src.now < 2 ^ 32 - 1 }
    ensures { Gives result (lex.lex src.now) }
{
    let mut found = Items::new(alloc);
    let mut at = 0;
    'pieces: while at < src.len() {
        let (kind, length) = piece_at(src, at)?;
        keep(&mut found, kind, at, at + length)?;
        at += length;
    }
    Ok(found)
}

/// The tokens of a text, in order: at each place the longest front that is a separator, a comment
/// or a token. The fault is the one at the least place.
pub fn tokens(alloc: Global, src: &[u8]) -> Result<Items<Token>, LexFault>
    requires { length src.now < 2 ^ 32 - 1 }
    ensures meant { MeansUnless result src.now }
    ensures only { (answer : Result (List Token) LexFault) → Means src.now answer → Gives result answer }
    ensures computed { Gives result (lex.lex src.now) }
    ensures spans { IfOk result (λ found. spec.AreSpans 0 (length src.now) found) }
{
    lex(alloc, src)
}

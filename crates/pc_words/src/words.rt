//! The words of a command line in a plain form.

ghost use Rattle.std.specs.Prelude.{IsTrue, ◌↔◌, ◌≢◌, [], ◌∷◌, map, codes, string_bytes, MatchOption};
ghost use Rattle.pc_words.specs.Words.{IsFile, IsPlain, IsOrder, ordered};

use crate::domains::{FactsDomain, QuickDomain};
use crate::loops::loops_of;
use crate::options::of_option;

/// A command line in one of its plain forms.
#[derive(Clone, Copy)]
pub enum Command<'a> {
    /// `infer F`: the condition of the source in the file.
    Infer {
        source: &'a str,
    },
    /// `infer F --certificate`: its certificate.
    Certify {
        source: &'a str,
    },
    /// `replay F C`: the ruling on a certificate for a source.
    Replay {
        source: &'a str,
        certificate: &'a str,
    },
    /// `run F S`: the verdict on the run of a source on a script.
    Run {
        source: &'a str,
        script: &'a str,
    },
    /// `breach F S`: the choices that break an assertion of a source from the entry of a script.
    Breach {
        source: &'a str,
        script: &'a str,
    },
    /// `facts F --domain=D`: what a domain knows at the points of a source.
    Facts {
        domain: FactsDomain,
        source: &'a str,
    },
    /// `quick F --domain=D`: the condition that a domain finds going backwards.
    Quick {
        domain: QuickDomain,
        source: &'a str,
    },
    /// `show F`: the canonical text of a source.
    Show {
        source: &'a str,
    },
    /// `trial N`: the condition of the made source with so many loops.
    Trial {
        loops: u32,
    },
}

/// The command that the words are. It is none exactly where they are in no plain form.
pub fn command_of(words: &[String]) -> Option<Command<'_>>
    ensures { MatchOption result (IsPlain (map string_bytes words.now) → ⊥) (λ c. IsOrder (map string_bytes words.now) (ordered c)) }
{
    match words {
        [verb, second] => of_two_words(verb.as_str(), second.as_str()),
        [verb, source, third] => of_three_words(verb.as_str(), source.as_str(), third.as_str()),
        _ => None,
    }
}

/// The command of a verb and a second word.
fn of_two_words<'a>(verb: &str, second: &'a str) -> Option<Command<'a>>
    ensures { MatchOption result (IsPlain (verb.now ∷ second.now ∷ []) → ⊥) (λ c. IsOrder (verb.now ∷ second.now ∷ []) (ordered c)) }
{
    if verb == "trial" {
        trial_of(second)
    } else if is_file(second) {
        of_one_file(verb, second)
    } else {
        None
    }
}

/// The trial that a word tells.
fn trial_of<'a>(word: &str) -> Option<Command<'a>>
    ensures { MatchOption result (IsPlain (codes "trial" ∷ word.now ∷ []) → ⊥) (λ c. IsOrder (codes "trial" ∷ word.now ∷ []) (ordered c)) }
{
    match loops_of(word) {
        Some(loops) => Some(Command::Trial { loops }),
        None => None,
    }
}

/// The command of a verb and a file.
fn of_one_file<'a>(verb: &str, source: &'a str) -> Option<Command<'a>>
    requires verb { verb.now ≢ codes "trial" }
    requires source { IsFile source.now }
    ensures { MatchOption result (IsPlain (verb.now ∷ source.now ∷ []) → ⊥) (λ c. IsOrder (verb.now ∷ source.now ∷ []) (ordered c)) }
{
    if verb == "infer" {
        Some(Command::Infer { source })
    } else if verb == "show" {
        Some(Command::Show { source })
    } else {
        None
    }
}

/// The command of a verb, a file and a third word.
fn of_three_words<'a>(verb: &str, source: &'a str, third: &'a str) -> Option<Command<'a>>
    ensures { MatchOption result (IsPlain (verb.now ∷ source.now ∷ third.now ∷ []) → ⊥) (λ c. IsOrder (verb.now ∷ source.now ∷ third.now ∷ []) (ordered c)) }
{
    if !is_file(source) {
        None
    } else if is_file(third) {
        of_two_files(verb, source, third)
    } else {
        of_option(verb, source, third)
    }
}

/// The command of a verb and two files.
fn of_two_files<'a>(verb: &str, source: &'a str, other: &'a str) -> Option<Command<'a>>
    requires source { IsFile source.now }
    requires other { IsFile other.now }
    ensures { MatchOption result (IsPlain (verb.now ∷ source.now ∷ other.now ∷ []) → ⊥) (λ c. IsOrder (verb.now ∷ source.now ∷ other.now ∷ []) (ordered c)) }
{
    if verb == "replay" {
        Some(Command::Replay {
            source,
            certificate: other,
        })
    } else if verb == "run" {
        Some(Command::Run {
            source,
            script: other,
        })
    } else if verb == "breach" {
        Some(Command::Breach {
            source,
            script: other,
        })
    } else {
        None
    }
}

/// Whether a word names a file: it is not empty, and does not begin with `-`.
fn is_file(word: &str) -> bool
    ensures { IsTrue result ↔ IsFile word.now }
{
    match word.as_bytes() {
        [] => false,
        [first, ..] => *first != b'-',
    }
}

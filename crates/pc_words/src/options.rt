//! Plain forms that end with an option.

ghost use Rattle.std.specs.Prelude.{[], ◌∷◌, codes, MatchOption};
ghost use Rattle.pc_words.specs.Words.{IsFile, IsPlain, IsOrder, ordered};

use crate::domains::{FactsDomain, QuickDomain};
use crate::words::Command;

/// The command of a verb, a file and a word that is no file.
pub(crate) fn of_option<'a>(verb: &str, source: &'a str, option: &str) -> Option<Command<'a>>
    requires source { IsFile source.now }
    requires option { IsFile option.now → ⊥ }
    ensures { MatchOption result (IsPlain (verb.now ∷ source.now ∷ option.now ∷ []) → ⊥) (λ c. IsOrder (verb.now ∷ source.now ∷ option.now ∷ []) (ordered c)) }
{
    if verb == "infer" {
        certify_of(source, option)
    } else if verb == "facts" {
        facts_of(source, option)
    } else if verb == "quick" {
        quick_of(source, option)
    } else {
        None
    }
}

/// The certificate of a source, behind the word that asks for it.
fn certify_of<'a>(source: &'a str, option: &str) -> Option<Command<'a>>
    requires source { IsFile source.now }
    ensures { MatchOption result (IsPlain (codes "infer" ∷ source.now ∷ option.now ∷ []) → ⊥) (λ c. IsOrder (codes "infer" ∷ source.now ∷ option.now ∷ []) (ordered c)) }
{
    if option == "--certificate" {
        Some(Command::Certify { source })
    } else {
        None
    }
}

/// What a domain knows of a source, behind the word that names the domain.
fn facts_of<'a>(source: &'a str, option: &str) -> Option<Command<'a>>
    requires source { IsFile source.now }
    ensures { MatchOption result (IsPlain (codes "facts" ∷ source.now ∷ option.now ∷ []) → ⊥) (λ c. IsOrder (codes "facts" ∷ source.now ∷ option.now ∷ []) (ordered c)) }
{
    match FactsDomain::of(option) {
        Some(domain) => Some(Command::Facts { domain, source }),
        None => None,
    }
}

/// A quick condition of a source, behind the word that names the domain.
fn quick_of<'a>(source: &'a str, option: &str) -> Option<Command<'a>>
    requires source { IsFile source.now }
    ensures { MatchOption result (IsPlain (codes "quick" ∷ source.now ∷ option.now ∷ []) → ⊥) (λ c. IsOrder (codes "quick" ∷ source.now ∷ option.now ∷ []) (ordered c)) }
{
    match QuickDomain::of(option) {
        Some(domain) => Some(Command::Quick { domain, source }),
        None => None,
    }
}

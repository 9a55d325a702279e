//! The domains that a command line names.

ghost use Rattle.std.specs.Prelude.{◌≡◌, MatchOption};
ghost use Rattle.pc_words.specs.Words.{facts_word, quick_word};

/// A domain of `facts`.
#[derive(Clone, Copy, Debug, PartialEq, Eq)]
pub enum FactsDomain {
    /// A least and a greatest number for each variable.
    Boxes,
    /// Rows that hold together.
    Polyhedra,
}

impl FactsDomain {
    /// The domain that a word names, as `--domain=boxes`.
    pub(crate) fn of(word: &str) -> Option<FactsDomain>
        ensures { MatchOption result ((domain : FactsDomain) → word.now ≡ facts_word domain → ⊥) (λ domain. word.now ≡ facts_word domain) }
    {
        if word == "--domain=boxes" {
            Some(FactsDomain::Boxes)
        } else if word == "--domain=polyhedra" {
            Some(FactsDomain::Polyhedra)
        } else {
            None
        }
    }
}

/// A domain of `quick`.
#[derive(Clone, Copy, Debug, PartialEq, Eq)]
pub enum QuickDomain {
    /// Rows that are needed, carried back.
    Rows,
    /// A least and a greatest number for each variable.
    Boxes,
}

impl QuickDomain {
    /// The domain that a word names, as `--domain=rows`.
    pub(crate) fn of(word: &str) -> Option<QuickDomain>
        ensures { MatchOption result ((domain : QuickDomain) → word.now ≡ quick_word domain → ⊥) (λ domain. word.now ≡ quick_word domain) }
    {
        if word == "--domain=rows" {
            Some(QuickDomain::Rows)
        } else if word == "--domain=boxes" {
            Some(QuickDomain::Boxes)
        } else {
            None
        }
    }
}

use pc_grammar::ParseFault;
use pc_program::AffineFault;
use pc_text::{LexFault, NoMemory, Place};
use std::alloc::AllocError;

/// Why a text is no program: the first rule that it breaks, and where.
#[derive(Clone, Copy, Debug, PartialEq, Eq)]
pub enum SourceFault {
    /// A byte that begins no token, comment or separator.
    BadByte(Place, u8),
    /// The first byte of a number over 2^127 - 1.
    LiteralTooBig(Place),
    /// The first byte of a name of more than 64 bytes.
    NameTooLong(Place),
    /// The first token such that no program begins with the tokens up to it; or the end of the text.
    Syntax(Place),
    /// The `{` that would be the 65th open one.
    TooDeep(Place),
    /// The 65th sign or parenthesis of an expression, or the `&&` before a ninth comparison.
    TooLong(Place),
    /// A name that was declared before.
    DuplicateName(Place),
    /// The 17th name.
    TooManyNames(Place),
    /// A name that is not declared.
    UnknownName(Place),
    /// A `*` both of whose sides have a variable.
    NotAffine(Place),
    /// An operator whose normal form is not in range, or a comparison one of whose rows, or the negation of one, is not.
    FormPast(Place),
    /// A `!=` that is not the whole test of an `if` or a `while`.
    Unequal(Place),
    /// The `[` of a choice whose first bound exceeds its second, with both bounds.
    EmptyInterval(Place, i128, i128),
    /// The first token of the statement at which the edges exceed 1,024.
    TooManyEdges(Place),
    /// There is no memory for the program.
    NoMemory,
}

impl From<AllocError> for SourceFault {
    ghost use Rattle.std.specs.Prelude.{◌≡◌};
    ghost use Rattle.pc_syntax.specs.declared.fault.SourceFault.TheVariants.{NoMemory};

    ghost from_gives = { λ _ f. f ≡ NoMemory };

    fn from(_: AllocError) -> SourceFault {
        SourceFault::NoMemory
    }
}

impl From<NoMemory> for SourceFault {
    ghost use Rattle.std.specs.Prelude.{◌≡◌};
    ghost use Rattle.pc_syntax.specs.declared.fault.SourceFault.TheVariants.{NoMemory};

    ghost from_gives = { λ _ f. f ≡ NoMemory };

    fn from(_: NoMemory) -> SourceFault {
        SourceFault::NoMemory
    }
}

impl From<LexFault> for SourceFault {
    ghost use Rattle.std.specs.Prelude.{◌≡◌};
    ghost use Rattle.pc_syntax.specs.Faults.{of_tokens};

    ghost from_gives = { λ e f. f ≡ of_tokens e };

    fn from(e: LexFault) -> SourceFault {
        match e {
            LexFault::BadByte(place, byte) => SourceFault::BadByte(place, byte),
            LexFault::LiteralTooBig(place) => SourceFault::LiteralTooBig(place),
            LexFault::NameTooLong(place) => SourceFault::NameTooLong(place),
            LexFault::NoMemory => SourceFault::NoMemory,
        }
    }
}

impl From<ParseFault> for SourceFault {
    ghost use Rattle.std.specs.Prelude.{◌≡◌};
    ghost use Rattle.pc_syntax.specs.Faults.{of_tree};

    ghost from_gives = { λ e f. f ≡ of_tree e };

    fn from(e: ParseFault) -> SourceFault {
        match e {
            ParseFault::Syntax(place) => SourceFault::Syntax(place),
            ParseFault::TooDeep(place) => SourceFault::TooDeep(place),
            ParseFault::TooLong(place) => SourceFault::TooLong(place),
            // No program has it: its blocks are not counted.
            ParseFault::TooManyProcesses(place) => SourceFault::Syntax(place),
            ParseFault::NoMemory => SourceFault::NoMemory,
        }
    }
}

impl From<AffineFault> for SourceFault {
    ghost use Rattle.std.specs.Prelude.{◌≡◌};
    ghost use Rattle.pc_syntax.specs.Faults.{source_fault};

    ghost from_gives = { λ e f. f ≡ source_fault e };

    fn from(e: AffineFault) -> SourceFault {
        match e {
            AffineFault::NotAffine(place) => SourceFault::NotAffine(place),
            AffineFault::Past(place) => SourceFault::FormPast(place),
        }
    }
}

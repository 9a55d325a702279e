use crate::place::Place;
use std::alloc::AllocError;

/// The largest value of a number in a text.
pub const LARGEST: u128 = 170141183460469231731687303715884105727;

/// The most bytes of a name.
pub const NAME_BYTES: usize = 64;

const _: () = prove!(NAME_BYTES == 64);

/// What a token is.
#[derive(Clone, Copy, Debug, PartialEq, Eq)]
pub enum Kind {
    /// One of `entry`, `var`, `if`, `else`, `while`, `try`, `assert` and `assume`.
    Keyword,
    /// A letter or `_`, then letters, digits and `_`: at most [`NAME_BYTES`] bytes, and no keyword.
    Name,
    /// A number with its value, which is at most [`LARGEST`].
    Number(i128),
    /// A sign of one or two bytes, as `(` or `<=`.
    Sign,
}

/// A token of a source: its text is `src[from..to]`.
#[derive(Clone, Copy, Debug, PartialEq, Eq)]
pub struct Token {
    pub kind: Kind,
    pub from: usize,
    pub to: usize,
}

/// Why a text has no tokens.
#[derive(Clone, Copy, Debug, PartialEq, Eq)]
pub enum LexFault {
    /// A byte that begins no token, comment or separator, with its place.
    BadByte(Place, u8),
    /// The first byte of a number over [`LARGEST`].
    LiteralTooBig(Place),
    /// The first byte of a name of more than [`NAME_BYTES`] bytes.
    NameTooLong(Place),
    /// There is no memory for the tokens.
    NoMemory,
}

impl From<AllocError> for LexFault {
    ghost use Rattle.std.specs.Prelude.{◌≡◌};
    ghost use Rattle.pc_text.specs.declared.token.LexFault.TheVariants.{NoMemory};

    ghost from_gives = { λ _ e. e ≡ NoMemory };

    fn from(_: AllocError) -> LexFault {
        LexFault::NoMemory
    }
}

//! The statuses with which a call ends.

/// The whole output was written.
pub const DONE: u8 = 0;

/// The run has violated an assertion, or the certificate is refused; the verdict or the refusal was
/// written.
pub const FAILED: u8 = 1;

/// The words are no command; how the program is used was written.
pub const USAGE: u8 = 2;

/// The source spells no program; the line that says why was written.
pub const REFUSED: u8 = 3;

/// The script or the certificate is not in its grammar; the line that says why was written.
pub const MALFORMED: u8 = 4;

/// A file could not be read, or is not there; nothing was written.
pub const STORE_FAILED: u8 = 5;

/// The writing failed; some first bytes of the output were written, and not all of them.
pub const SINK_FAILED: u8 = 6;

/// There was no memory; nothing was written.
pub const NO_MEMORY: u8 = 7;

/// A file has more bytes than its limit; the line that says which was written.
pub const TOO_LONG: u8 = 8;

/// The run needs a value that is not in range; the verdict was written.
pub const PAST: u8 = 9;

const _: () = prove!(DONE == 0 && FAILED == 1 && USAGE == 2 && REFUSED == 3 && MALFORMED == 4);

const _: () = prove!(
    STORE_FAILED == 5 && SINK_FAILED == 6 && NO_MEMORY == 7 && TOO_LONG == 8 && PAST == 9
);

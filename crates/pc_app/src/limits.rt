//! Limits.

use pc_certify::CANDIDATES;

/// The most bytes of a source.
pub const SOURCE_BYTES: usize = 1_048_576;

/// The most bytes of a script.
pub const SCRIPT_BYTES: usize = 1_048_576;

/// The most bytes of a certificate.
pub const CERTIFICATE_BYTES: usize = 2_147_483_648;

/// The most alternatives of a condition.
pub const ALTERNATIVES: usize = 9;

const _: () = prove!(
    SOURCE_BYTES == 1_048_576 && SCRIPT_BYTES == 1_048_576 && CERTIFICATE_BYTES == 2_147_483_648
);

const _: () = prove!(ALTERNATIVES == 9 && ALTERNATIVES == CANDIDATES);

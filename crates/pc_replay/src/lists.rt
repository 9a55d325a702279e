//! The lists of an alternative.

ghost use Rattle.std.specs.Prelude.{◌≡◌, ◌<◌, length, slice_get, Some};

use pc_certificate::Annotated;
use pc_rows::Proof;

/// The proofs of edge `i`.
pub fn proofs_at(a: &Annotated, i: u32) -> &[Proof]
    requires { i < length a.now.proofs }
    ensures { slice_get a.now.proofs i ≡ Some result.now }
{
    a.proofs.as_slice()[i as usize].as_slice()
}

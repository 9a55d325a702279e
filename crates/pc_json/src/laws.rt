//! Laws of certificates in JSON.

ghost use Rattle.pc_json.specs.Answers.{ShownIsReadBack, ValueDeterminesCertificate};

/// No two certificates have one value.
pub fn value_determines_certificate()
    ensures { ValueDeterminesCertificate }
{}

/// Of bytes that say a certificate each right answer of [`read_json`](crate::read_json) is this
/// certificate, unless memory is wanting.
pub fn shown_is_read_back()
    ensures { ShownIsReadBack }
{}

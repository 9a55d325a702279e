//! Laws of the texts of certificates.

ghost use Rattle.pc_cert.specs.Answers.{EachTextHasOneAnswer, TextDeterminesCertificate};

/// No two certificates have one text.
pub fn text_determines_certificate()
    ensures { TextDeterminesCertificate }
{}

/// A text is that of a certificate and has no fault, or it is that of none and has one.
pub fn each_text_has_one_answer()
    ensures { EachTextHasOneAnswer }
{}

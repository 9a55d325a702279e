//! What canonical texts and made sources spell: a leaf. Each law is the contract of a function that
//! does nothing.
#![tactic(auto)]

mod laws;

pub use laws::{
    canonical_texts_are_cut, made_sources_spell, show_reads_back, spelled_are_showable,
    texts_leave_out_places,
};

//! The grammar of sentences, and that reading is what it says.
#![tactic(auto)]

mod laws;

pub use laws::{
    derived_sentences_are_read, derived_texts_fit, read_sentences_are_derived, read_sentences_fit,
};

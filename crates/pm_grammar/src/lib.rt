//! The grammar of formulas, and that reading is what it says.
#![tactic(auto)]

mod laws;

pub use laws::{
    derived_parts_are_read, derived_texts_are_read, read_parts_are_derived, read_texts_are_derived,
    shallow_texts_are_read, texts_have_one_tree,
};

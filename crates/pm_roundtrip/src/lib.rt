//! What is printed is read again.
#![tactic(auto)]

mod laws;

pub use laws::{printed_is_read, printing_is_derived, printing_is_lexed, shallow_printed_is_read};

//! Writing proofs down as derivation texts.
#![tactic(auto)]

mod lines;
mod recalled;
mod rules;
mod table;
mod texts;
mod writing;
mod written;

pub use writing::{Named, write_derivation};

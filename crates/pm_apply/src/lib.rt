//! Actions of proof terms that apply what is in hand, and take lemmas in hand. Each is a row of the directive table, with a
//! proof.
#![tactic(auto)]

mod applying;
mod cited;
mod citing;
mod context;
mod premises;
mod reaching;
mod rules;

pub use applying::apply;
pub use citing::lemma;

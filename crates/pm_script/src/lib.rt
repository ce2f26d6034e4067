//! Sentences of scripts.
#![tactic(auto)]

mod directive;
mod directives;
mod parts;
mod plain;
mod predicates;
mod proof_terms;
mod reading;
mod sentence;
mod statements;
mod steps;
mod trees;
mod words;

pub use directive::Directive;
pub use pm_cutter::{Cutter, Ended, Span};
pub use pm_patterns::{Cert, Head, Item, Pat, Pick, ProofTerm, Sel, Spat};
pub use reading::read_sentence;
pub use sentence::{Sentence, Stated};

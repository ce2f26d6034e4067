//! Terms, pure formulas and formulas, printed, and the lines of predicates and statements.
#![tactic(auto)]

mod formulas;
mod lines;
mod names;
mod print;
mod pures;
mod sign;
mod terms;
mod text;
mod units;

pub use print::{print_formula, print_lemma, print_predicate, print_pure, print_term};

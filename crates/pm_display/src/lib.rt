//! Goals as text: variables, facts, hypotheses and conclusion.
#![tactic(auto)]

mod contexts;
mod goal;
mod lines;

pub use goal::print_goal;

//! The rule table: which premises lead to which conclusions.
#![tactic(auto)]

mod atoms;
mod certificates;
mod conditions;
mod equations;
mod forms;
mod given;
mod judging;
mod linear;
mod matching;
mod pattern;
mod quantifiers;
mod rules;
mod shapes;
mod table;

pub use conditions::premise_count;
pub use judging::rule_ok;
pub use pattern::{Binary, Unary};
pub use rules::{Condition, Entail, Rule, Unmet};

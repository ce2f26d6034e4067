//! The lines of a derivation text behind its table of predicates.

use pm_logic::Name;
use pm_rules::{Entail, Rule};

/// A line that was read.
#[derive(Drop)]
pub enum Line {
    /// A proof line: the entailment follows by the rule from the proof lines of these numbers.
    Step {
        rule: Rule,
        first: Option<u64>,
        second: Option<u64>,
        entail: Entail,
    },
    /// The proof line of this number is a statement of this name.
    Qed {
        name: Name,
        cited: u64,
    },
}

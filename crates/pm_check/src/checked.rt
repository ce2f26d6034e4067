//! What a derivation states.

use pm_logic::{Formula, List, Name, Preds};

/// A formula that is derived from truth, under a name.
#[derive(Drop)]
pub struct Statement {
    pub name: Name,
    pub formula: Formula,
}

/// The table of a derivation, and its statements in order.
#[derive(Drop)]
pub struct Checked {
    pub preds: Preds,
    pub statements: List<Statement>,
}

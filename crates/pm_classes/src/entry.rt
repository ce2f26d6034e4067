//! What the calls answer where a formula is of the class.

use pm_logic::{Formula, Pure};
use pm_proof::Proof;

/// Two parts, and the proof of what the class says of them.
#[derive(Drop)]
pub struct Pair {
    pub first: Formula,
    pub second: Formula,
    pub proof: Proof,
}

/// One formula, and the proof of what the class says of it.
#[derive(Drop)]
pub struct One {
    pub formula: Formula,
    pub proof: Proof,
}

/// A pure formula, and the proof of what the class says of it.
#[derive(Drop)]
pub struct OnePure {
    pub pure: Pure,
    pub proof: Proof,
}

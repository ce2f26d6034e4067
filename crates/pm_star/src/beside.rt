//! A proof, and a formula that stands in what it proves.

use pm_logic::Formula;
use pm_proof::Proof;

/// A proof, and a formula that is a part of one of its sides.
#[derive(Drop)]
pub struct Beside {
    pub proof: Proof,
    pub part: Formula,
}

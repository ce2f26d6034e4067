//! What framing answers.

use pm_logic::Formula;
use pm_proof::Proof;

/// What is left of a formula when another is taken out of it, and the proof that this one beside what is left entails it.
#[derive(Drop)]
pub struct Framed {
    pub rest: Formula,
    pub proof: Proof,
}

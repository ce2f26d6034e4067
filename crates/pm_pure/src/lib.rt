//! Actions on what is pure: a goal with a pure conclusion, and cases by a pure formula. Each is a row of the directive table,
//! with a proof.
#![tactic(auto)]

mod deciding;
mod proving;
mod rules;

pub use deciding::cases;
pub use proving::pure_intro;

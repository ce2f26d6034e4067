//! Actions on modalities: the elimination of updates. Each is a row of the directive table, with a proof.
#![tactic(auto)]

mod eliminating;

pub use eliminating::elim_update;

//! Actions that frame: a hypothesis or fact is taken out of the conclusion. Each is a row of the directive table, with a proof.
#![tactic(auto)]

mod concluding;
mod in_hand;
mod naming;
mod opening;
mod rules;
mod sources;

pub use in_hand::frame_held;
pub use naming::{frame_member, frame_named};

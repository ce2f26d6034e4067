//! Elementary actions as values (`Act`), run on all works of a goal from left to right: `begin` starts from one work, and each
//! `sweep` does an action in every place whose turn it is, up to the first refusal, and puts its proof in the place's hole. So
//! what stands is at each moment a list of places, and a proof of the first work from what these mean.
#![tactic(auto)]

mod act;
mod lists;
mod performing;
mod placing;
mod sweeping;

pub use act::{Act, Changing, Entering, Framing, Giving, Handling, Turn};
pub use lists::{append, with_turn_each, with_turns};
pub use placing::{begin, stay};
pub use sweeping::sweep;

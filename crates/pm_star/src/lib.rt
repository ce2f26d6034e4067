//! Moves within flat stars: proofs that the star of a goal entails that star changed at a place, or dealt into two; and proofs
//! one after another.
#![tactic(auto)]

mod beside;
mod boxes;
mod boxing;
mod chaining;
mod collecting;
mod goals;
mod levels;
mod moves;
mod pairing;
mod relocating;
mod rules;
mod side;
mod sinking;
mod walks;
mod works;

pub use chaining::compose;
pub use goals::{boxed, bring_front, drop_at, duplicate, partition, replace_at, sink};
pub use works::{
    bring_front_held, carry_held, drop_at_held, duplicate_held, merge_held, partition_held,
    replace_at_held, sink_held, unpair_held,
};

//! Actions on a goal with nothing in hand by the bodies of predicates: each is a row of the directive table, with a proof.
#![tactic(auto)]

mod bodies;
mod finishing;
mod folding;
mod putting;
mod unfolding;

pub use folding::fold;
pub use unfolding::unfold;

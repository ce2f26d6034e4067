//! Framing: what is left of a formula when another is taken out of it, and the proof that both together entail it.
#![tactic(auto)]

mod closing;
mod framed;
mod framing;
mod leaves;
mod modal;
mod quantified;
mod sides;
mod stars;

pub use framed::Framed;
pub use framing::frame;

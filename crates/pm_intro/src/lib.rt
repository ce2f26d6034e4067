//! Actions that introduce what a conclusion or a hypothesis in hand is made of: each is a row of the directive table, with a
//! proof.
#![tactic(auto)]

mod arrows;
mod cases;
mod closing;
mod ending;
mod entries;
mod fronts;
mod hands;
mod pairing;
mod steps;
mod universal;
mod variables;
mod witness;

pub use arrows::intro_hyp;
pub use cases::either;
pub use pairing::pair;
pub use universal::{intro_all, intro_all_fresh};

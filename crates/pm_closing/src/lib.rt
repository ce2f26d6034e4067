//! Actions that close a goal: each is a row of the directive table, with a proof.
#![tactic(auto)]

mod assuming;
mod exactly;
mod falsehoods;
mod finding;
mod finishing;
mod naming;
mod opposites;
mod reflexive;
mod searching;
mod stepping;
mod taking;
mod way;

pub use assuming::assumption;
pub use exactly::exact;
pub use finishing::{done, try_done};

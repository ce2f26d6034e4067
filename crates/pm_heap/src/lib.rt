//! Actions on points-to: two are combined, one is written. Each is a row of the directive table, with a proof.
#![tactic(auto)]

mod combining;
mod finding;
mod running;
mod steps;
mod taking;
mod writing;

pub use combining::combine_held;
pub use writing::write;

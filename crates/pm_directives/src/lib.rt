//! Directives, run on the works of a goal as the directive table says. `is_built` says which are built; `step` answers the goals
//! to which one leads, with a proof of what the old goal means from what they mean, or the row that refuses it.
#![tactic(auto)]

mod accepting;
mod directives;
mod groups;
mod holding;
mod introducing;
mod patterns;
mod stepping;

pub use accepting::is_built;
pub use stepping::step;

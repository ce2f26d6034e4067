//! A counted pointer that contracts see as its value. The trees of the logic share their parts through it.
#![tactic(auto)]

mod shared;

pub use shared::Shared;

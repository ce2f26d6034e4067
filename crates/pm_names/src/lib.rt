//! Names: which bytes are one.
#![tactic(auto)]

mod names;

pub use names::{continues_name, is_name, starts_name};

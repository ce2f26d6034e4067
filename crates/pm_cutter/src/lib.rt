//! Scripts, cut into sentences however their bytes come.
#![tactic(auto)]

mod cutter;
mod finish;
mod laws;
mod mode;
mod moves;
mod span;

pub use cutter::Cutter;
pub use laws::{cut_is_splitting, cutting_is_steady};
pub use span::{Ended, Span};

//! Runs of scripts: sentence by sentence, up to a derivation of the lemmas that they prove.
#![tactic(auto)]

mod halted;
mod laws;
mod proof;
mod ran;
mod rows;
mod running;
mod script;
mod stop;

pub use halted::{Halted, halt_script};
pub use laws::{halts_are_one, runs_are_one, runs_are_total};
pub use ran::Ran;
pub use script::run_script;
pub use stop::Stop;

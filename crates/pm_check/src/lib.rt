//! The checker: whether a text is a derivation, and what it states.
#![tactic(auto)]

mod checked;
mod fault;
mod judging;
mod kept;
mod laws;
mod reading;
mod table;

pub use checked::{Checked, Statement};
pub use fault::{CheckFault, Failed, QedCondition};
pub use judging::check_bytes;
pub use laws::{
    derivations_are_true, none_lacks_verdict, nothing_absurd_is_derived, proof_lines_are_true,
    verdicts_are_one,
};
pub use reading::check;

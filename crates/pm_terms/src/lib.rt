//! Terms and pure formulas, read from tokens.
#![tactic(auto)]

mod context;
mod fault;
mod level;
mod literals;
mod pures;
mod scope;
mod steps;
mod terms;

pub use context::{Callee, Context, Own};
pub use fault::{TextFault, moved};
pub use level::{Before, Comparison, PureLevel, Sign};
pub use literals::{literal, natural, negative, positive, read_natural};
pub use pures::{deep_pure, pure_in};
pub use scope::{callable_of, variable_at, variable_of};
pub use steps::{
    after_group, behind, expect, is_symbol, is_whole, offset, sees, sees_number, unexpected,
};
pub use terms::{deep_term, operand_in, sum_in, sums_in};

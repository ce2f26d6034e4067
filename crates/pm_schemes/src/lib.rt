//! Derived rules as data: derivations over letters, with gaps, and the proofs that they stand for; proofs by the rules
//! whose formulas are computed.
#![tactic(auto)]

mod bare;
mod common;
mod facts;
mod heap;
mod instances;
mod notation;
mod pattern;
mod planting;
mod predicates;
mod quantifiers;
mod scheme;

pub use bare::Bare;
pub use common::{chain, exchange};
pub use facts::{linear, rewrite, strip_timeless};
pub use heap::{agree, join_units, overfull, split_units, write};
pub use instances::Letters;
pub use pattern::{Pattern, PurePattern, Sides};
pub use planting::derive;
pub use pm_rules::{Binary, Unary};
pub use predicates::{fold, unfold_call};
pub use quantifiers::{eliminate, generalize, instantiate, specialize, witness};
pub use scheme::Scheme;

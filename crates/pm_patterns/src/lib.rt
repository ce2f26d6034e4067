//! What stands between quotes: patterns, selections, specialisation patterns and certificates.
#![tactic(auto)]

mod certificates;
mod extent;
mod introductions;
mod names;
mod part;
mod pattern;
mod patterns;
mod premises;
mod signs;

pub use certificates::quoted_cert;
pub use introductions::{bound_pattern, further_intros, quoted_intros};
pub use names::{grouped_names, name_in, quoted_name, quoted_names, quoted_sels};
pub use part::{ReadList, closed};
pub use pattern::{Cert, Head, Item, Pat, Pick, ProofTerm, Sel, Spat};
pub use patterns::quoted_pattern;
pub use premises::{quoted_premise, quoted_spats};

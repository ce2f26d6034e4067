//! Formulas, read from texts, and what goes with them: names, faults and printing.
#![tactic(auto)]

mod calls;
mod formulas;
mod infixes;
mod level;
mod openings;
mod points;
mod texts;
mod trees;
mod units;

pub use formulas::{Bound, formula_in};
pub use level::{Binder, Infix, Level};
pub use pm_names::is_name;
pub use pm_print::print_formula;
pub use pm_terms::TextFault;
pub use points::ReadFormula;
pub use texts::{Readable, read_formula, read_pure, read_term, read_text};
pub use trees::{Tree, whole_tree};

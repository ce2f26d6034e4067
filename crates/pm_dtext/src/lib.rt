//! Derivation texts: their lines.
#![tactic(auto)]

mod arguments;
mod arities;
mod fault;
mod formulas;
mod fronts;
mod laws;
mod line;
mod lines;
mod names;
mod pures;
mod signs;
mod table_lines;
mod terms;
mod texts;
mod words;

pub use fault::{Fault, LineFault, ReadFault};
pub use fronts::{next_arities, next_header, next_line, next_pred};
pub use laws::{
    arities_are_read, headers_are_read, lines_are_read, names_are_numbered, preds_are_read,
    ranges_are_scopes,
};
pub use line::Line;
pub use names::rule_name;
pub use texts::{read_arities, read_header, read_line, read_pred};

//! The logic: lists, names, terms, formulas and predicates, and calls over them.
#![tactic(auto)]

mod building;
mod change;
mod classes;
mod compare;
mod copying;
mod equality;
mod filling;
mod formula;
mod guarding;
mod integers;
mod limits;
mod list;
mod name;
mod node;
mod raising;
mod replace;
mod scoping;
mod size;
mod substitution;

pub use building::{
    add, all, and, ex, imp, later, neg, or, pers, pure_and, pure_not, pure_or, scale, sep, sub,
    upd, wand,
};
pub use classes::{persistent, timeless};
pub use copying::{copy, copy_pure, copy_term};
pub use equality::{same, same_pure, same_term};
pub use formula::{BOUND, Formula, Pred, Preds, Pure, Term, UNIT};
pub use guarding::guarded;
pub use integers::{formula_is_i64, pure_is_i64, term_is_i64};
pub use limits::{
    MAX_HYPOTHESES, MAX_LEMMAS, MAX_LEVELS, MAX_LINE_LEVELS, MAX_LINE_TERMS, MAX_LINE_VARIABLES,
    MAX_NAMES, MAX_NODES, MAX_PREDICATES, MAX_SCRIPT, MAX_SENTENCE, MAX_TABLE, MAX_VARIABLES,
};
pub use list::{Bytes, List, Memory};
pub use name::{Name, copy_name};
pub use scoping::scoped;
pub use size::{depth, nodes, pure_depth, term_depth};
pub use substitution::{
    abstract_term, abstracted_opens, are_substitutions, equality_is_tested, is_opened, is_shift,
    is_subst, opened, scope_is_kept, shift, subst,
};

//! What a text is read with.

ghost use Rattle.std.specs.Prelude.{◌<◌, ◌^◌, length};

use pm_logic::Pred;
use pm_name_sets::NameIndex;
use std::alloc::Global;

/// A predicate whose body is read. Its place is the one behind the table.
#[derive(Clone, Copy)]
pub struct Own<'a> {
    pub name: &'a [u8],
    pub arity: u32,
}

/// The place of a predicate in the table, counted from 0, and its number of parameters.
#[derive(Clone, Copy)]
pub struct Callee {
    pub index: u32,
    pub arity: u32,
}

/// What stays the same while a text is read.
#[derive(Drop)]
pub struct Context<'a> {
    /// What trees are made with.
    pub alloc: Global,
    /// The offset in bytes at which the tokens end: the end of the text, or the first byte that begins no token.
    pub stop: usize,
    /// The variables outside the text, index 0 first. Of two with one name the first counts.
    pub vars: NameIndex<'a>,
    /// The predicates that may be called. Of two with one name the first counts.
    pub preds: &'a [Pred],
    /// A predicate that counts before those of the table.
    pub own: Option<Own<'a>>,
    ghost few_vars: { length vars < 2 ^ 31 },
    ghost few_preds: { length preds.now < 2 ^ 31 },
}

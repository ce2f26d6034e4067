//! Tokens and where they stand.

use crate::symbol::Symbol;

#[derive(Clone, Copy)]
pub enum Token<'a> {
    Name(&'a [u8]),
    /// Its value, cut at the greatest of the type.
    Number(u64),
    Symbol(Symbol),
}

/// A token and the offset of its first byte.
#[derive(Clone, Copy)]
pub struct Placed<'a> {
    pub token: Token<'a>,
    pub at: usize,
}

/// The tokens of a text.
#[derive(Drop)]
pub struct Tokens<'a> {
    pub list: Vec<Placed<'a>>,
    /// Where no token begins that isn't in the list: the end of the text, or the first byte that begins none.
    pub stop: usize,
}

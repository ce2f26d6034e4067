//! How much of a pattern is read.

/// A pattern, or those behind an ampersand.
#[derive(Clone, Copy)]
pub enum Extent {
    One,
    Others,
}

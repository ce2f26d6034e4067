//! Pieces of a script.

use pm_logic::Bytes;

/// A sentence's bytes without its full stop, and the offset of the first.
#[derive(Drop)]
pub struct Span {
    pub offset: u64,
    pub text: Bytes,
}

/// How a script ends, where the end counts as a blank.
#[derive(Drop)]
pub enum Ended {
    /// With blanks and closed comments.
    Clean,
    /// With the sentence that its end finishes.
    Last(Span),
    /// With more than that, at this offset: the first byte outside comments that isn't UTF-8, or the end.
    Rest(u64),
}

//! Where a byte of a script stands.

/// A place outside comments.
#[derive(Clone, Copy)]
pub enum Region {
    /// Between sentences.
    Gap,
    /// In the sentence that starts at this offset, between quotes or not.
    Sentence { start: u64, quoted: bool },
}

#[derive(Clone, Copy)]
pub struct Mode {
    pub region: Region,
    /// How many comments are open.
    pub depth: u64,
    /// At the second byte of `(*` or `*)`.
    pub passing: bool,
}

/// What a byte does.
#[derive(Clone, Copy)]
pub enum Move {
    On(Mode),
    /// It finishes the sentence from this offset to that one, which isn't part of it.
    Finished { start: u64, end: u64 },
}

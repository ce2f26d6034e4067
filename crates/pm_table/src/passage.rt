//! What becomes of a context where a modality is introduced.

/// What the introduction of a modality does with a context.
#[derive(Clone, Copy, Debug, PartialEq, Eq)]
pub enum Passage {
    /// The context has to be empty.
    Empty,
    /// The modality has to admit each hypothesis, and they stay.
    All,
    /// Each hypothesis becomes what the modality makes of it.
    Transform,
    /// The hypotheses are dropped.
    Clear,
    /// The hypotheses stay.
    Identity,
}

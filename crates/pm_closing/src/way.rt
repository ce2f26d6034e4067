//! Parts of a star that close a goal.

/// How a part of the star gives the conclusion.
#[derive(Clone, Copy)]
pub enum Way {
    /// It is the conclusion.
    Same,
    /// It is the conclusion under a persistence modality.
    Boxed,
    /// It is falsehood.
    Falsehood,
    /// It is falsehood under a persistence modality.
    BoxedFalsehood,
}

/// A part of the star that gives the conclusion.
#[derive(Clone, Copy)]
pub struct Found {
    /// Its place, where facts come first, then intuitionistic hypotheses, then spatial ones.
    pub place: u32,
    pub way: Way,
}

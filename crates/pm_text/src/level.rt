//! What of a formula is read next.

/// Which quantifier binds.
#[derive(Clone, Copy, PartialEq, Eq)]
pub enum Binder {
    All,
    Ex,
}

/// What of a formula is read.
#[derive(Clone, Copy, PartialEq, Eq)]
pub enum Level {
    /// A formula.
    Wands,
    /// One with no wand or implication outside parentheses.
    Ors,
    /// Nor a disjunction.
    Stars,
    /// Nor a conjunction or star.
    Prefixes,
    /// The names of a quantifier, its comma and its body.
    Names(Binder),
    /// The right side of a wand with an update, which opens one construct more.
    Updates,
}

/// An infix of formulas.
#[derive(Clone, Copy, PartialEq, Eq)]
pub enum Infix {
    Wand,
    UpdateWand,
    Implies,
    Or,
    And,
    Star,
}

//! What is read next, and what was read before it.

use pm_logic::Term;

/// A prefix of an operand in a term.
#[derive(Clone, Copy)]
pub enum Sign {
    /// The literal and the sign of a product.
    Times(i64),
    /// The minus of a negation.
    Minus,
}

/// What stands before the last plus or minus of a sum, with it.
pub enum Before {
    Nothing,
    Plus(Term),
    Minus(Term),
}

impl Drop for Before {
    fn drop(self) {
        match self {
            Before::Nothing => {}
            Before::Plus(a) | Before::Minus(a) => drop(a),
        }
    }
}

/// A comparison of two terms.
#[derive(Clone, Copy, PartialEq, Eq)]
pub enum Comparison {
    Equal,
    AtMost,
    Below,
    Differs,
    AtLeast,
    Above,
}

/// What of a pure formula is read.
#[derive(Clone, Copy, PartialEq, Eq)]
pub enum PureLevel {
    /// A pure formula.
    Ors,
    /// One with no disjunction outside parentheses.
    Ands,
    /// Nor a conjunction.
    Literals,
}

//! Formulas over letters, as the rows of the table have them.

/// The signs with one operand.
#[derive(Clone, Copy, Debug, PartialEq, Eq)]
pub enum Unary {
    All,
    Ex,
    Later,
    Pers,
    Upd,
}

/// The signs with two operands.
#[derive(Clone, Copy, Debug, PartialEq, Eq)]
pub enum Binary {
    Sep,
    Wand,
    And,
    Or,
    Imp,
}

/// A letter that stands for a formula.
#[derive(Clone, Copy)]
pub enum Letter {
    First,
    Second,
    Third,
    Fourth,
}

/// A letter that stands for a pure formula.
#[derive(Clone, Copy)]
pub enum PureLetter {
    First,
    Second,
}

/// A pure formula over letters.
#[derive(Clone, Copy)]
pub enum PurePattern {
    Letter(PureLetter),
    True,
    False,
    And(&'static PurePattern, &'static PurePattern),
    Or(&'static PurePattern, &'static PurePattern),
    Not(&'static PurePattern),
}

/// A formula over letters.
#[derive(Clone, Copy)]
pub enum Pattern {
    Letter(Letter),
    Pure(&'static PurePattern),
    One(Unary, &'static Pattern),
    Two(Binary, &'static Pattern, &'static Pattern),
}

/// The sides of an entailment, over letters.
#[derive(Clone, Copy)]
pub struct Sides {
    pub left: Pattern,
    pub right: Pattern,
}

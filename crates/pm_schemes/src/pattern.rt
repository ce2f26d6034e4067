//! Formulas over letters.

use pm_rules::{Binary, Unary};

/// A pure formula over letters, which are counted from 0 by themselves.
#[derive(Clone, Copy)]
pub enum PurePattern {
    Letter(u8),
    True,
    False,
    And(&'static PurePattern, &'static PurePattern),
    Or(&'static PurePattern, &'static PurePattern),
    Not(&'static PurePattern),
}

/// A formula over letters, which are counted from 0.
#[derive(Clone, Copy)]
pub enum Pattern {
    Letter(u8),
    Pure(&'static PurePattern),
    One(Unary, &'static Pattern),
    Two(Binary, &'static Pattern, &'static Pattern),
}

/// The sides of an entailment, over letters.
#[derive(Clone, Copy)]
pub struct Sides {
    pub left: Pattern,
    pub right: Pattern,
}

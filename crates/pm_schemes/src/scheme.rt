//! Derivations over letters.

use crate::bare::Bare;
use crate::pattern::Sides;

/// A derivation over letters, each step with its two sides: a gap, which is a place for a proof that is handed in, or a rule
/// over none, one or two premises.
#[derive(Clone, Copy)]
pub enum Scheme {
    Gap(Sides),
    Axiom(Bare, Sides),
    One(Bare, Sides, &'static Scheme),
    Two(Bare, Sides, &'static Scheme, &'static Scheme),
}

//! The logic's trees: terms, pure formulas, formulas and predicates.
//!
//! To add a formula: a variant here, its builder in building.rt, and a row in each of specs/Trees, Scope, Integers, Guard,
//! Classes, Size, Substitution and Changes, with the lemmas beside them in proofs/ and an arm of each walk. Then upwards: a
//! row of Forcing and Laws in pm_model, of Spelling, Ranges and Reading in pm_dtext, of what reads and prints formulas
//! (pm_text, pm_print, pm_grammar), and rules about it (pm_rules, pm_sound). `rt check` in each crate's folder, lowest first,
//! then `rt ci`.

use crate::list::List;
use crate::name::Name;
use pm_shared::Shared;

/// The units of a whole points-to: the least common multiple of 1 to 16.
pub const UNIT: u32 = 720_720;

/// The most that is handed to a call: the number of variables plus the depth of a formula, the indices of terms, and
/// their depths.
pub const BOUND: u32 = 1_000_000_000;

/// A term, whose value is an integer.
pub enum Term {
    /// The integer itself.
    Lit(i64),
    /// The variable of this de Bruijn index, 0 the innermost.
    Var(u32),
    /// The first plus the second.
    Add(Shared<Term>, Shared<Term>),
    /// The first minus the second.
    Sub(Shared<Term>, Shared<Term>),
    /// The term's value with the other sign.
    Neg(Shared<Term>),
    /// The factor times the term.
    Scale(i64, Shared<Term>),
}

/// A formula about integers alone.
pub enum Pure {
    True,
    False,
    /// The values are equal.
    Eq(Term, Term),
    /// The first value is at most the second.
    Le(Term, Term),
    /// The first value is below the second.
    Lt(Term, Term),
    And(Shared<Pure>, Shared<Pure>),
    Or(Shared<Pure>, Shared<Pure>),
    Not(Shared<Pure>),
}

/// A formula about resources.
pub enum Formula {
    /// The pure formula holds.
    Pure(Pure),
    /// The resource has two parts, of which the first meets the first formula and the second the second.
    Sep(Shared<Formula>, Shared<Formula>),
    /// Together with any resource that meets the first formula it meets the second.
    Wand(Shared<Formula>, Shared<Formula>),
    And(Shared<Formula>, Shared<Formula>),
    Or(Shared<Formula>, Shared<Formula>),
    /// Where a larger resource meets the first formula it meets the second.
    Imp(Shared<Formula>, Shared<Formula>),
    /// For every integer, which is index 0 in the part.
    All(Shared<Formula>),
    /// For some integer, which is index 0 in the part.
    Ex(Shared<Formula>),
    /// One step later.
    Later(Shared<Formula>),
    /// By the resource's core.
    Pers(Shared<Formula>),
    /// After an update of the resource.
    Upd(Shared<Formula>),
    /// The location has at least this many units, 1 to `UNIT`, with the value.
    Pts { loc: Term, units: u32, val: Term },
    /// The body of the predicate in this place of the table, with these terms as its parameters.
    Call { pred: u32, args: List<Term> },
}

/// A predicate. Its body is scoped in its arity, and parameter `j`, counted from 0, is index `j`.
#[derive(Drop)]
pub struct Pred {
    pub name: Name,
    pub arity: u32,
    pub body: Formula,
}

/// A table of predicates, which are named by their places from 0.
#[derive(Drop)]
pub struct Preds {
    pub list: List<Pred>,
}

// Written out, since a contract then sees one call where a value is let go, and not the layout of the tree.

impl Drop for Term {
    fn drop(self) {
        match self {
            Term::Lit(_) | Term::Var(_) => {}
            Term::Add(a, b) | Term::Sub(a, b) => {
                drop(a);
                drop(b);
            }
            Term::Neg(a) | Term::Scale(_, a) => drop(a),
        }
    }
}

impl Drop for Pure {
    fn drop(self) {
        match self {
            Pure::True | Pure::False => {}
            Pure::Eq(s, t) | Pure::Le(s, t) | Pure::Lt(s, t) => {
                drop(s);
                drop(t);
            }
            Pure::And(a, b) | Pure::Or(a, b) => {
                drop(a);
                drop(b);
            }
            Pure::Not(a) => drop(a),
        }
    }
}

impl Drop for Formula {
    fn drop(self) {
        match self {
            Formula::Pure(p) => drop(p),
            Formula::Sep(a, b)
            | Formula::Wand(a, b)
            | Formula::And(a, b)
            | Formula::Or(a, b)
            | Formula::Imp(a, b) => {
                drop(a);
                drop(b);
            }
            Formula::All(a)
            | Formula::Ex(a)
            | Formula::Later(a)
            | Formula::Pers(a)
            | Formula::Upd(a) => drop(a),
            Formula::Pts { loc, units: _, val } => {
                drop(loc);
                drop(val);
            }
            Formula::Call { pred: _, args } => drop(args),
        }
    }
}

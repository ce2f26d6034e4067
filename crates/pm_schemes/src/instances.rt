//! Formulas and entailments of patterns.

ghost use Rattle.std.specs.Prelude.{◌≡◌, IfOk};
ghost use Rattle.pm_rules.specs.Shapes.{instance, one, two};
ghost use Rattle.pm_rules.specs.PureShapes.{pure_instance};
ghost use Rattle.pm_schemes.specs.Sketches.{entail_of};
ghost use Rattle.pm_schemes.specs.Read.{shape_of, pure_shape_of, sequent_of, letters_of};

use crate::pattern::{Pattern, PurePattern, Sides};
use pm_logic::{
    Formula, Memory, Pure, all, and, copy, copy_pure, ex, imp, later, or, pers, pure_and, pure_not,
    pure_or, sep, upd, wand,
};
use pm_rules::{Binary, Entail, Unary};
use std::alloc::Global;

/// What the letters stand for, by their numbers. A letter that isn't there stands for `⌜True⌝`, or `True`.
#[derive(Clone, Copy)]
pub struct Letters<'a> {
    pub formulas: &'a [&'a Formula],
    pub pures: &'a [&'a Pure],
}

fn under(alloc: Global, sign: Unary, a: Formula) -> Result<Formula, Memory>
    ensures { IfOk result (λ f. f ≡ one sign a) }
{
    match sign {
        Unary::All => all(alloc, a),
        Unary::Ex => ex(alloc, a),
        Unary::Later => later(alloc, a),
        Unary::Pers => pers(alloc, a),
        Unary::Upd => upd(alloc, a),
    }
}

fn between(alloc: Global, sign: Binary, a: Formula, b: Formula) -> Result<Formula, Memory>
    ensures { IfOk result (λ f. f ≡ two sign a b) }
{
    match sign {
        Binary::Sep => sep(alloc, a, b),
        Binary::Wand => wand(alloc, a, b),
        Binary::And => and(alloc, a, b),
        Binary::Or => or(alloc, a, b),
        Binary::Imp => imp(alloc, a, b),
    }
}

fn pure_formula(alloc: Global, pattern: &PurePattern, letters: Letters) -> Result<Pure, Memory>
    ensures { IfOk result (λ f. f ≡ pure_instance (letters_of letters.entry).pure (pure_shape_of pattern.now)) }
{
    match pattern {
        PurePattern::Letter(i) => match letters.pures.get(*i as usize) {
            Some(p) => copy_pure(alloc, p),
            None => Ok(Pure::True),
        },
        PurePattern::True => Ok(Pure::True),
        PurePattern::False => Ok(Pure::False),
        PurePattern::And(a, b) => {
            let a = pure_formula(alloc, a, letters)?;
            let b = pure_formula(alloc, b, letters)?;
            pure_and(alloc, a, b)
        }
        PurePattern::Or(a, b) => {
            let a = pure_formula(alloc, a, letters)?;
            let b = pure_formula(alloc, b, letters)?;
            pure_or(alloc, a, b)
        }
        PurePattern::Not(a) => {
            let a = pure_formula(alloc, a, letters)?;
            pure_not(alloc, a)
        }
    }
}

fn formula(alloc: Global, pattern: &Pattern, letters: Letters) -> Result<Formula, Memory>
    ensures { IfOk result (λ f. f ≡ instance (letters_of letters.entry) (shape_of pattern.now)) }
{
    match pattern {
        Pattern::Letter(i) => match letters.formulas.get(*i as usize) {
            Some(f) => copy(alloc, f),
            None => Ok(Formula::Pure(Pure::True)),
        },
        Pattern::Pure(a) => Ok(Formula::Pure(pure_formula(alloc, a, letters)?)),
        Pattern::One(sign, a) => {
            let a = formula(alloc, a, letters)?;
            under(alloc, *sign, a)
        }
        Pattern::Two(sign, a, b) => {
            let a = formula(alloc, a, letters)?;
            let b = formula(alloc, b, letters)?;
            between(alloc, *sign, a, b)
        }
    }
}

/// The entailment of the sides.
pub(crate) fn entailment(
    alloc: Global,
    vars: u32,
    sides: &Sides,
    letters: Letters,
) -> Result<Entail, Memory>
    ensures { IfOk result (λ e. e ≡ entail_of vars (letters_of letters.entry) (sequent_of sides.now)) }
{
    let left = formula(alloc, &sides.left, letters)?;
    let right = formula(alloc, &sides.right, letters)?;
    Ok(Entail { vars, left, right })
}

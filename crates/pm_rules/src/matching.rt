//! Whether formulas are instances of shapes.

ghost use Rattle.std.specs.Prelude.{◌≡◌, None, Some, MatchOption};
ghost use Rattle.std.specs.Option.{option_copied};
ghost use Rattle.pm_rules.specs.Read.{place, pure_place, shape_of, pure_shape_of};
ghost use Rattle.pm_rules.specs.Shapes as shape;
ghost use Rattle.pm_rules.specs.Shapes.{two};
ghost use Rattle.pm_rules.specs.PureShapes as pure_shape;
ghost use Rattle.pm_rules.specs.Signs.{IsOperand, NotTwo};
ghost use Rattle.pm_rules.specs.Matching.{known, known_of, Meets, Matches, PureMatches};

use crate::pattern::{Binary, Letter, Pattern, PureLetter, PurePattern, Unary};
use pm_logic::{Formula, Pure, same, same_pure};

/// What the letters that were met stand for.
#[derive(Clone, Copy)]
pub struct Found<'a> {
    pub first: Option<&'a Formula>,
    pub second: Option<&'a Formula>,
    pub third: Option<&'a Formula>,
    pub fourth: Option<&'a Formula>,
    pub pure_first: Option<&'a Pure>,
    pub pure_second: Option<&'a Pure>,
}

/// The letter's place where `f` is met at it, and `None` where another formula stands there.
fn meet<'a>(old: Option<&'a Formula>, f: &'a Formula) -> Option<&'a Formula>
    ensures { Meets (option_copied old.entry) f.now (option_copied result) }
{
    match old {
        Some(g) if !same(g, f) => None,
        _ => Some(f),
    }
}

/// The same for a letter that stands for a pure formula.
fn meet_pure<'a>(old: Option<&'a Pure>, f: &'a Pure) -> Option<&'a Pure>
    ensures { Meets (option_copied old.entry) f.now (option_copied result) }
{
    match old {
        Some(g) if !same_pure(g, f) => None,
        _ => Some(f),
    }
}

/// What is known once `f` is met at the letter.
fn bind<'a>(letter: Letter, f: &'a Formula, found: Found<'a>) -> Option<Found<'a>>
    ensures { Matches (known found.entry) (shape.Letter (place letter)) f.now (known_of result) }
{
    match letter {
        Letter::First => Some(Found {
            first: Some(meet(found.first, f)?),
            ..found
        }),
        Letter::Second => Some(Found {
            second: Some(meet(found.second, f)?),
            ..found
        }),
        Letter::Third => Some(Found {
            third: Some(meet(found.third, f)?),
            ..found
        }),
        Letter::Fourth => Some(Found {
            fourth: Some(meet(found.fourth, f)?),
            ..found
        }),
    }
}

/// The same for a letter that stands for a pure formula.
fn bind_pure<'a>(letter: PureLetter, f: &'a Pure, found: Found<'a>) -> Option<Found<'a>>
    ensures { PureMatches (known found.entry) (pure_shape.Letter (pure_place letter)) f.now (known_of result) }
{
    match letter {
        PureLetter::First => Some(Found {
            pure_first: Some(meet_pure(found.pure_first, f)?),
            ..found
        }),
        PureLetter::Second => Some(Found {
            pure_second: Some(meet_pure(found.pure_second, f)?),
            ..found
        }),
    }
}

/// The operand of `f` under the sign.
fn operand<'a>(sign: Unary, f: &'a Formula) -> Option<&'a Formula>
    ensures { IsOperand sign f.now (option_copied result) }
{
    match (sign, f) {
        (Unary::All, Formula::All(a))
        | (Unary::Ex, Formula::Ex(a))
        | (Unary::Later, Formula::Later(a))
        | (Unary::Pers, Formula::Pers(a))
        | (Unary::Upd, Formula::Upd(a)) => Some(a.get()),
        _ => None,
    }
}

/// The operands of `f` under the sign.
fn operands<'a>(sign: Binary, f: &'a Formula) -> Option<(&'a Formula, &'a Formula)>
    ensures { MatchOption result (NotTwo sign f.now) (λ x. f.now ≡ two sign x.0.now x.1.now) }
{
    match (sign, f) {
        (Binary::Sep, Formula::Sep(a, b))
        | (Binary::Wand, Formula::Wand(a, b))
        | (Binary::And, Formula::And(a, b))
        | (Binary::Or, Formula::Or(a, b))
        | (Binary::Imp, Formula::Imp(a, b)) => Some((a.get(), b.get())),
        _ => None,
    }
}

/// The letters under which `f` is an instance of the shape, where those that were met before stand for what they did.
fn matches_pure<'a>(shape: &PurePattern, f: &'a Pure, found: Found<'a>) -> Option<Found<'a>>
    ensures { PureMatches (known found.entry) (pure_shape_of shape.now) f.now (known_of result) }
{
    match (shape, f) {
        (PurePattern::Letter(letter), _) => bind_pure(*letter, f, found),
        (PurePattern::True, Pure::True) | (PurePattern::False, Pure::False) => Some(found),
        (PurePattern::And(a, b), Pure::And(x, y)) | (PurePattern::Or(a, b), Pure::Or(x, y)) => {
            let found = matches_pure(a, x.get(), found)?;
            matches_pure(b, y.get(), found)
        }
        (PurePattern::Not(a), Pure::Not(x)) => matches_pure(a, x.get(), found),
        _ => None,
    }
}

/// The letters under which `f` is an instance of the shape, where those that were met before stand for what they did.
#[tactic(auto, using(crate::proofs::Matched::one_matches, crate::proofs::Matched::two_denied, crate::proofs::Matched::two_matches))]
pub fn matches<'a>(shape: &Pattern, f: &'a Formula, found: Found<'a>) -> Option<Found<'a>>
    ensures { Matches (known found.entry) (shape_of shape.now) f.now (known_of result) }
{
    match shape {
        Pattern::Letter(letter) => bind(*letter, f, found),
        Pattern::Pure(a) => match f {
            Formula::Pure(x) => matches_pure(a, x, found),
            _ => None,
        },
        Pattern::One(sign, a) => matches(a, operand(*sign, f)?, found),
        Pattern::Two(sign, a, b) => {
            let (x, y) = operands(*sign, f)?;
            let found = matches(a, x, found)?;
            matches(b, y, found)
        }
    }
}

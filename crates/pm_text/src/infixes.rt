//! The infixes and quantifiers of formulas.

ghost use Rattle.std.specs.Prelude.{◌≡◌, length, IsTrue, IfOk, IsSome, ◌≤◌};
ghost use Rattle.pm_tokens.specs.Tokens.{places};
ghost use Rattle.pm_text.specs.FormulaReading as spec;

use crate::level::{Binder, Infix, Level};
use pm_logic::{Formula, Memory, all, and, ex, imp, or, sep, upd, wand};
use pm_tokens::{Placed, Symbol, Token};
use std::alloc::Global;

#[tactic(auto, unfolding(crate::specs::FormulaReading::infix_of))]
fn infix_of(level: Level, symbol: Symbol) -> Option<Infix>
    ensures { result ≡ spec.infix_of level symbol }
{
    match (level, symbol) {
        (Level::Wands, Symbol::Wand) => Some(Infix::Wand),
        (Level::Wands, Symbol::Arrow) => Some(Infix::Implies),
        (Level::Wands, Symbol::UpdateWand) => Some(Infix::UpdateWand),
        (Level::Ors, Symbol::Or) => Some(Infix::Or),
        (Level::Stars, Symbol::And) => Some(Infix::And),
        (Level::Stars, Symbol::Star | Symbol::Asterisk) => Some(Infix::Star),
        _ => None,
    }
}

/// The infix of this level that comes next.
pub fn next_infix(level: Level, tokens: &[Placed]) -> Option<Infix>
    ensures value { result ≡ spec.next_infix level (places tokens.now) }
    ensures some { IsSome result → 1 ≤ length tokens.now }
{
    let [first, ..] = tokens else {
        return None;
    };
    match first.token {
        Token::Symbol(symbol) => infix_of(level, symbol),
        _ => None,
    }
}

/// What of a formula stands on the right of the infix.
pub fn right_of(sign: Infix) -> Level
    ensures { result ≡ spec.right_of sign }
{
    match sign {
        Infix::Wand | Infix::Implies => Level::Wands,
        Infix::UpdateWand => Level::Updates,
        Infix::Or => Level::Ors,
        Infix::And | Infix::Star => Level::Stars,
    }
}

/// Both sides joined by the infix.
#[tactic(auto, unfolding(crate::specs::FormulaReading::joined))]
pub fn joined(alloc: Global, sign: Infix, left: Formula, right: Formula) -> Result<Formula, Memory>
    ensures { IfOk result (λ f. f ≡ spec.joined sign left right) }
{
    match sign {
        Infix::Wand => wand(alloc, left, right),
        Infix::UpdateWand => {
            let right = upd(alloc, right)?;
            wand(alloc, left, right)
        }
        Infix::Implies => imp(alloc, left, right),
        Infix::Or => or(alloc, left, right),
        Infix::And => and(alloc, left, right),
        Infix::Star => sep(alloc, left, right),
    }
}

/// The body under the quantifier.
#[tactic(auto, unfolding(crate::specs::FormulaReading::quantified))]
pub fn quantified(alloc: Global, binder: Binder, body: Formula) -> Result<Formula, Memory>
    ensures { IfOk result (λ f. f ≡ spec.quantified binder body) }
{
    match binder {
        Binder::All => all(alloc, body),
        Binder::Ex => ex(alloc, body),
    }
}

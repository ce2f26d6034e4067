//! Pure formulas. `room` is how many constructs may still be opened, and `bound` are the names bound in the text, the
//! innermost last.

ghost use Rattle.std.specs.Prelude.{◌≡◌, ◌+◌, ◌≤◌, ◌<◌, length, IfOk};
ghost use Rattle.pm_logic.specs.declared.formula.Pure.TheViews as pure;
ghost use Rattle.pm_tokens.specs.Tokens.{places};
ghost use Rattle.pm_tokens.specs.declared.symbol.Symbol.TheVariants.{Close};
ghost use Rattle.pm_terms.specs.Scope.{names_in};
ghost use Rattle.pm_terms.specs.Steps.{ReadsAs, closed_by, made};
ghost use Rattle.pm_terms.specs.PureReading.{comparison_of, compared, next_comparison, begins_comparison, sees_infix, joined, deep_pure, comparison_at, literal_at, infix_at, ands_at, pure_at, pure_in};
ghost use Rattle.pm_terms.specs.declared.level.PureLevel.TheVariants as levels;

use crate::context::Context;
use crate::fault::TextFault;
use crate::level::{Comparison, PureLevel};
use crate::steps::{after_group, behind, expect, sees, unexpected};
use crate::terms::{deep_term, sum_in};
use pm_logic::{Memory, Pure, Term, pure_and, pure_not, pure_or};
use pm_tokens::{Placed, Symbol, Token};
use std::alloc::Global;

/// A pure formula, and the tokens behind it.
pub type ReadPure<'a, 'b> = Result<(Pure, &'a [Placed<'b>]), TextFault>;

// ---- comparisons

#[tactic(auto, unfolding(crate::specs::PureReading::comparison_of))]
fn comparison_of(symbol: Symbol) -> Option<Comparison>
    ensures { result ≡ comparison_of symbol }
{
    if symbol == Symbol::Equals {
        Some(Comparison::Equal)
    } else if symbol == Symbol::AtMost {
        Some(Comparison::AtMost)
    } else if symbol == Symbol::Less {
        Some(Comparison::Below)
    } else if symbol == Symbol::NotEqual {
        Some(Comparison::Differs)
    } else if symbol == Symbol::AtLeast {
        Some(Comparison::AtLeast)
    } else if symbol == Symbol::Greater {
        Some(Comparison::Above)
    } else {
        None
    }
}

/// The comparison of two terms. The error is want of memory.
#[tactic(auto, unfolding(crate::specs::PureReading::compared))]
fn compared(alloc: Global, sign: Comparison, a: Term, b: Term) -> Result<Pure, Memory>
    ensures { IfOk result (λ p. p ≡ compared sign a b) }
{
    match sign {
        Comparison::Equal => Ok(Pure::Eq(a, b)),
        Comparison::AtMost => Ok(Pure::Le(a, b)),
        Comparison::Below => Ok(Pure::Lt(a, b)),
        Comparison::Differs => pure_not(alloc, Pure::Eq(a, b)),
        Comparison::AtLeast => Ok(Pure::Le(b, a)),
        Comparison::Above => Ok(Pure::Lt(b, a)),
    }
}

/// The comparison that is next, if one is.
#[tactic(auto, unfolding(crate::specs::PureReading::next_comparison))]
fn next_comparison(tokens: &[Placed<'_>]) -> Option<Comparison>
    ensures { result ≡ next_comparison (places tokens.now) }
{
    let [first, ..] = tokens else {
        return None;
    };
    match first.token {
        Token::Name(_) => None,
        Token::Number(_) => None,
        Token::Symbol(symbol) => comparison_of(symbol),
    }
}

/// Whether the parenthesis before these tokens begins a term.
#[tactic(auto, unfolding(crate::specs::PureReading::begins_comparison))]
fn begins_comparison(tokens: &[Placed<'_>]) -> bool
    ensures { result ≡ begins_comparison (places tokens.now) }
{
    let rest = after_group(tokens);
    next_comparison(rest).is_some() || sees(Symbol::Plus, rest) || sees(Symbol::Minus, rest)
}

/// A comparison, inside which `room` constructs may be opened.
#[tactic(auto, unfolding(crate::specs::PureReading::comparison_at, crate::specs::PureReading::comparison_sign))]
fn comparison_at<'a, 'b>(
    context: &Context<'_>,
    room: u32,
    bound: &[&[u8]],
    tokens: &'a [Placed<'b>],
) -> ReadPure<'a, 'b>
    requires { length bound.now + room < 1000 }
    ensures { ReadsAs result (comparison_at context.now.stop (names_in bound.now context.now.vars) (pure_in context.now.stop (names_in bound.now context.now.vars) room) room (places tokens.now)) }
{
    let (a, rest) = sum_in(context, room + 1, bound, tokens)?;
    let Some(sign) = next_comparison(rest) else {
        return Err(unexpected(context.stop, rest));
    };
    let (b, rest) = sum_in(context, room, bound, behind(rest))?;
    Ok((compared(context.alloc, sign, a, b)?, rest))
}

// ---- pure formulas

/// The fault at a pure formula before which as many constructs are open as may be: what else is wrong with its first
/// token, else `Deep`.
#[tactic(auto, unfolding(crate::specs::PureReading::deep_pure))]
pub fn deep_pure(context: &Context<'_>, bound: &[&[u8]], tokens: &[Placed<'_>]) -> TextFault
    requires { length bound.now ≤ 1000 }
    ensures { result ≡ deep_pure context.now.stop (names_in bound.now context.now.vars) (places tokens.now) }
{
    let [first, ..] = tokens else {
        return deep_term(context, bound, tokens);
    };
    match first.token {
        Token::Name(_) => deep_term(context, bound, tokens),
        Token::Number(_) => deep_term(context, bound, tokens),
        Token::Symbol(symbol) => {
            if symbol == Symbol::Not || symbol == Symbol::True || symbol == Symbol::False {
                TextFault::Deep(first.at as u64)
            } else {
                deep_term(context, bound, tokens)
            }
        }
    }
}

/// A negation, from behind its sign.
#[cycle(pure)]
fn negation<'a, 'b>(
    context: &Context<'_>,
    room: u32,
    bound: &[&[u8]],
    tokens: &'a [Placed<'b>],
) -> ReadPure<'a, 'b>
    requires { length bound.now + room < 1000 }
    ensures { ReadsAs result (made pure.Not (pure_in context.now.stop (names_in bound.now context.now.vars) room levels.Literals (places tokens.now))) }
{
    let (inner, rest) = pure_in(context, room, PureLevel::Literals, bound, tokens)?;
    Ok((pure_not(context.alloc, inner)?, rest))
}

/// A pure formula in parentheses, from behind the one that opens.
#[cycle(pure)]
#[tactic(auto, unfolding(crate::specs::Steps::closed_by))]
fn group<'a, 'b>(
    context: &Context<'_>,
    room: u32,
    bound: &[&[u8]],
    tokens: &'a [Placed<'b>],
) -> ReadPure<'a, 'b>
    requires { length bound.now + room < 1000 }
    ensures { ReadsAs result (closed_by Close context.now.stop (pure_in context.now.stop (names_in bound.now context.now.vars) room levels.Ors (places tokens.now))) }
{
    let (inner, rest) = pure_in(context, room, PureLevel::Ors, bound, tokens)?;
    let rest = expect(Symbol::Close, context.stop, rest)?;
    Ok((inner, rest))
}

/// A pure formula that no infix joins to another, inside which `room` constructs may be opened.
#[cycle(pure)]
#[tactic(auto, unfolding(crate::specs::PureReading::literal_at))]
fn literal_at<'a, 'b>(
    context: &Context<'_>,
    room: u32,
    bound: &[&[u8]],
    tokens: &'a [Placed<'b>],
) -> ReadPure<'a, 'b>
    requires { length bound.now + room < 1000 }
    ensures { ReadsAs result (literal_at context.now.stop (names_in bound.now context.now.vars) (pure_in context.now.stop (names_in bound.now context.now.vars) room) room (places tokens.now)) }
{
    let [first, rest @ ..] = tokens else {
        return comparison_at(context, room, bound, tokens);
    };
    match first.token {
        Token::Name(_) => comparison_at(context, room, bound, tokens),
        Token::Number(_) => comparison_at(context, room, bound, tokens),
        Token::Symbol(symbol) => {
            if symbol == Symbol::Not {
                negation(context, room, bound, rest)
            } else if symbol == Symbol::True {
                Ok((Pure::True, rest))
            } else if symbol == Symbol::False {
                Ok((Pure::False, rest))
            } else if symbol == Symbol::Open && !begins_comparison(rest) {
                group(context, room, bound, rest)
            } else {
                comparison_at(context, room, bound, tokens)
            }
        }
    }
}

fn sees_infix(level: PureLevel, tokens: &[Placed<'_>]) -> bool
    ensures { result ≡ sees_infix level (places tokens.now) }
{
    match level {
        PureLevel::Ors => sees(Symbol::Or, tokens),
        PureLevel::Ands => sees(Symbol::And, tokens),
        PureLevel::Literals => false,
    }
}

/// The two joined by the infix of the level, and the first where there is none. The error is want of memory.
fn joined(alloc: Global, level: PureLevel, a: Pure, b: Pure) -> Result<Pure, Memory>
    ensures { IfOk result (λ p. p ≡ joined level a b) }
{
    match level {
        PureLevel::Ors => pure_or(alloc, a, b),
        PureLevel::Ands => pure_and(alloc, a, b),
        PureLevel::Literals => Ok(a),
    }
}

/// What follows behind the left operand of an infix of this level, if one is next.
#[cycle(pure)]
#[tactic(auto, unfolding(crate::specs::PureReading::infix_at))]
fn infix_at<'a, 'b>(
    context: &Context<'_>,
    room: u32,
    level: PureLevel,
    bound: &[&[u8]],
    left: Pure,
    tokens: &'a [Placed<'b>],
) -> ReadPure<'a, 'b>
    requires { length bound.now + room < 1000 }
    ensures { ReadsAs result (infix_at context.now.stop (names_in bound.now context.now.vars) (pure_in context.now.stop (names_in bound.now context.now.vars) room) room level left (places tokens.now)) }
{
    if !sees_infix(level, tokens) {
        return Ok((left, tokens));
    }
    let (right, rest) = pure_in(context, room, level, bound, behind(tokens))?;
    Ok((joined(context.alloc, level, left, right)?, rest))
}

/// A pure formula with no disjunction outside parentheses, inside which `room` constructs may be opened.
#[cycle(pure)]
#[tactic(auto, unfolding(crate::specs::PureReading::ands_at))]
fn ands_at<'a, 'b>(
    context: &Context<'_>,
    room: u32,
    bound: &[&[u8]],
    tokens: &'a [Placed<'b>],
) -> ReadPure<'a, 'b>
    requires { length bound.now + room < 1000 }
    ensures { ReadsAs result (ands_at context.now.stop (names_in bound.now context.now.vars) (pure_in context.now.stop (names_in bound.now context.now.vars) room) room (places tokens.now)) }
{
    let (left, rest) = literal_at(context, room, bound, tokens)?;
    infix_at(context, room, PureLevel::Ands, bound, left, rest)
}

/// A pure formula of a level, inside which `room` constructs may be opened.
#[cycle(pure)]
#[tactic(auto, unfolding(crate::specs::PureReading::pure_at, crate::specs::PureReading::ors_at))]
fn pure_at<'a, 'b>(
    context: &Context<'_>,
    room: u32,
    level: PureLevel,
    bound: &[&[u8]],
    tokens: &'a [Placed<'b>],
) -> ReadPure<'a, 'b>
    requires { length bound.now + room < 1000 }
    ensures { ReadsAs result (pure_at context.now.stop (names_in bound.now context.now.vars) (pure_in context.now.stop (names_in bound.now context.now.vars) room) room level (places tokens.now)) }
{
    match level {
        PureLevel::Ors => {
            let (left, rest) = ands_at(context, room, bound, tokens)?;
            infix_at(context, room, PureLevel::Ors, bound, left, rest)
        }
        PureLevel::Ands => ands_at(context, room, bound, tokens),
        PureLevel::Literals => literal_at(context, room, bound, tokens),
    }
}

/// A pure formula of a level, and the tokens behind it. The error is the first fault from left to right, or want of
/// memory.
#[cycle(pure)]
pub fn pure_in<'a, 'b>(
    context: &Context<'_>,
    room: u32,
    level: PureLevel,
    bound: &[&[u8]],
    tokens: &'a [Placed<'b>],
) -> ReadPure<'a, 'b>
    requires { length bound.now + room ≤ 1000 }
    ensures { ReadsAs result (pure_in context.now.stop (names_in bound.now context.now.vars) room level (places tokens.now)) }
{
    if room == 0 {
        Err(deep_pure(context, bound, tokens))
    } else {
        pure_at(context, room - 1, level, bound, tokens)
    }
}

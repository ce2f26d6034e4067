//! Terms. `room` is how many constructs may still be opened, and `bound` are the names bound in the text, the innermost
//! last.

ghost use Rattle.std.specs.Prelude.{◌≡◌, ◌+◌, ◌≤◌, [], ◌∷◌, ◌++◌, drop, length, IfOk};
ghost use Rattle.pm_tokens.specs.Tokens.{places};
ghost use Rattle.pm_terms.specs.Operands.{scaled, summand};
ghost use Rattle.pm_terms.specs.Scope.{names_in};
ghost use Rattle.pm_terms.specs.Steps.{ReadsAs, closed_by, with_commas};
ghost use Rattle.pm_terms.specs.TermReading.{signed, added, deep_term, operand_at, sum_at, term_at, term_in, operand_in, sum_in};
ghost use Rattle.pm_tokens.specs.declared.symbol.Symbol.TheVariants.{Close};
ghost use Rattle.pm_terms.specs.declared.level.Before.TheVariants as before;
ghost use Rattle.pm_terms.specs.declared.level.Sign.TheVariants as sign;

use crate::context::Context;
use crate::fault::TextFault;
use crate::level::{Before, Sign};
use crate::literals::{begins_negation, begins_scale, literal, positive};
use crate::scope::variable_at;
use crate::steps::{behind, expect, sees};
use pm_logic::{List, Memory, Term, add, copy_term, neg, scale, sub};
use pm_tokens::{Placed, Symbol, Token};
use std::alloc::Global;

/// A term, and the tokens behind it.
pub type ReadTerm<'a, 'b> = Result<(Term, &'a [Placed<'b>]), TextFault>;

/// The fault at a term before which as many constructs are open as may be: what else is wrong with its first token, else
/// `Deep`.
#[tactic(auto, unfolding(crate::specs::TermReading::deep_term))]
pub fn deep_term(context: &Context<'_>, bound: &[&[u8]], tokens: &[Placed<'_>]) -> TextFault
    requires { length bound.now ≤ 1000 }
    ensures { result ≡ deep_term context.now.stop (names_in bound.now context.now.vars) (places tokens.now) }
{
    let [first, ..] = tokens else {
        return TextFault::Unexpected(context.stop as u64);
    };
    match first.token {
        Token::Name(name) => match variable_at(context, bound, name, first.at) {
            Ok(_) => TextFault::Deep(first.at as u64),
            Err(fault) => fault,
        },
        Token::Number(number) => match positive(number, first.at) {
            Ok(_) => TextFault::Deep(first.at as u64),
            Err(fault) => fault,
        },
        Token::Symbol(symbol) => {
            if symbol == Symbol::Open || symbol == Symbol::Minus {
                TextFault::Deep(first.at as u64)
            } else {
                TextFault::Unexpected(first.at as u64)
            }
        }
    }
}

/// The operand behind its signs, the outermost first.
#[tactic(auto, unfolding(crate::specs::TermReading::signed))]
fn signed(alloc: Global, signs: &[Sign], operand: Term) -> Result<Term, Memory>
    ensures { IfOk result (λ t. t ≡ signed signs.now operand) }
{
    match signs {
        [] => Ok(operand),
        [first, rest @ ..] => {
            let inner = signed(alloc, rest, operand)?;
            match first {
                Sign::Times(z) => scale(alloc, *z, inner),
                Sign::Minus => neg(alloc, inner),
            }
        }
    }
}

/// The product behind what stands before it in its sum.
#[tactic(auto, unfolding(crate::specs::TermReading::added))]
fn added(alloc: Global, left: &Before, product: Term) -> Result<Term, Memory>
    ensures { IfOk result (λ t. t ≡ added left.now product) }
{
    match left {
        Before::Nothing => Ok(product),
        Before::Plus(left) => add(alloc, copy_term(alloc, left)?, product),
        Before::Minus(left) => sub(alloc, copy_term(alloc, left)?, product),
    }
}

/// The product of an operand with its signs, behind what stands before it in its sum.
fn completed(alloc: Global, left: &Before, signs: &[Sign], operand: Term) -> Result<Term, Memory>
    ensures { IfOk result (λ t. t ≡ added left.now (signed signs.now operand)) }
{
    let product = signed(alloc, signs, operand)?;
    added(alloc, left, product)
}

/// A sum in parentheses, from behind the one that opens.
#[cycle(term)]
#[tactic(auto, unfolding(crate::specs::Steps::closed_by))]
fn group<'a, 'b>(
    context: &Context<'_>,
    room: u32,
    bound: &[&[u8]],
    tokens: &'a [Placed<'b>],
) -> ReadTerm<'a, 'b>
    requires { length bound.now + room ≤ 1000 }
    ensures { ReadsAs result (closed_by Close context.now.stop (term_in context.now.stop (names_in bound.now context.now.vars) room before.Nothing [] (places tokens.now))) }
{
    let none = List::new(context.alloc);
    let (inner, rest) = term_in(context, room, bound, Before::Nothing, none, tokens)?;
    let rest = expect(Symbol::Close, context.stop, rest)?;
    Ok((inner, rest))
}

/// An operand, inside which `room` constructs may be opened.
#[cycle(term)]
#[tactic(auto, unfolding(crate::specs::TermReading::operand_at))]
fn operand_at<'a, 'b>(
    context: &Context<'_>,
    room: u32,
    bound: &[&[u8]],
    tokens: &'a [Placed<'b>],
) -> ReadTerm<'a, 'b>
    requires { length bound.now + room ≤ 1000 }
    ensures { ReadsAs result (operand_at context.now.stop (names_in bound.now context.now.vars) (term_in context.now.stop (names_in bound.now context.now.vars) room) (places tokens.now)) }
{
    let [first, rest @ ..] = tokens else {
        return Err(TextFault::Unexpected(context.stop as u64));
    };
    match first.token {
        Token::Name(name) => Ok((
            Term::Var(variable_at(context, bound, name, first.at)?),
            rest,
        )),
        Token::Number(number) => Ok((Term::Lit(positive(number, first.at)?), rest)),
        Token::Symbol(symbol) => {
            if symbol == Symbol::Open {
                group(context, room, bound, rest)
            } else {
                let (z, rest) = literal(context.stop, tokens)?;
                Ok((Term::Lit(z), rest))
            }
        }
    }
}

/// What follows in the sum, behind the products that are read.
#[cycle(term)]
#[tactic(auto, unfolding(crate::specs::TermReading::sum_at))]
fn sum_at<'a, 'b>(
    context: &Context<'_>,
    room: u32,
    bound: &[&[u8]],
    left: Term,
    tokens: &'a [Placed<'b>],
) -> ReadTerm<'a, 'b>
    requires { length bound.now + room ≤ 1000 }
    ensures { ReadsAs result (sum_at context.now.stop (names_in bound.now context.now.vars) (term_in context.now.stop (names_in bound.now context.now.vars) room) left (places tokens.now)) }
{
    let none = List::new(context.alloc);
    if sees(Symbol::Plus, tokens) {
        term_in(
            context,
            room,
            bound,
            Before::Plus(left),
            none,
            behind(tokens),
        )
    } else if sees(Symbol::Minus, tokens) {
        term_in(
            context,
            room,
            bound,
            Before::Minus(left),
            none,
            behind(tokens),
        )
    } else {
        Ok((left, tokens))
    }
}

/// From the factor of a product on, which is one sign more before the operand that comes.
#[cycle(term)]
fn scaled<'a, 'b>(
    context: &Context<'_>,
    room: u32,
    bound: &[&[u8]],
    left: Before,
    mut signs: List<Sign>,
    tokens: &'a [Placed<'b>],
) -> ReadTerm<'a, 'b>
    requires { length bound.now + room ≤ 1000 }
    ensures { ReadsAs result (scaled context.now.stop (term_in context.now.stop (names_in bound.now context.now.vars) room) left signs (places tokens.now)) }
{
    let (z, rest) = literal(context.stop, tokens)?;
    signs.push(Sign::Times(z))?;
    term_in(context, room, bound, left, signs, behind(rest))
}

/// From the minus of a negation on, which is one sign more before the operand that comes.
#[cycle(term)]
fn negated<'a, 'b>(
    context: &Context<'_>,
    room: u32,
    bound: &[&[u8]],
    left: Before,
    mut signs: List<Sign>,
    tokens: &'a [Placed<'b>],
) -> ReadTerm<'a, 'b>
    requires { length bound.now + room ≤ 1000 }
    ensures { ReadsAs result (term_in context.now.stop (names_in bound.now context.now.vars) room left (signs ++ sign.Minus ∷ []) (drop 1 (places tokens.now))) }
{
    signs.push(Sign::Minus)?;
    term_in(context, room, bound, left, signs, behind(tokens))
}

/// From an operand on, behind all its signs.
#[cycle(term)]
fn summand<'a, 'b>(
    context: &Context<'_>,
    room: u32,
    bound: &[&[u8]],
    left: &Before,
    signs: &[Sign],
    tokens: &'a [Placed<'b>],
) -> ReadTerm<'a, 'b>
    requires { length bound.now + room ≤ 1000 }
    ensures { ReadsAs result (summand context.now.stop (names_in bound.now context.now.vars) (term_in context.now.stop (names_in bound.now context.now.vars) room) left.now signs.now (places tokens.now)) }
{
    let (operand, rest) = operand_at(context, room, bound, tokens)?;
    let sum = completed(context.alloc, left, signs, operand)?;
    sum_at(context, room, bound, sum, rest)
}

/// The rest of a sum, inside which `room` constructs may be opened: behind what stands before it, and the signs of the
/// operand that comes.
#[cycle(term)]
#[tactic(auto, unfolding(crate::specs::TermReading::term_at))]
fn term_at<'a, 'b>(
    context: &Context<'_>,
    room: u32,
    bound: &[&[u8]],
    left: Before,
    signs: List<Sign>,
    tokens: &'a [Placed<'b>],
) -> ReadTerm<'a, 'b>
    requires { length bound.now + room ≤ 1000 }
    ensures { ReadsAs result (term_at context.now.stop (names_in bound.now context.now.vars) (term_in context.now.stop (names_in bound.now context.now.vars) room) left signs (places tokens.now)) }
{
    if begins_scale(tokens) {
        scaled(context, room, bound, left, signs, tokens)
    } else if begins_negation(tokens) {
        negated(context, room, bound, left, signs, tokens)
    } else {
        summand(context, room, bound, &left, signs.as_slice(), tokens)
    }
}

/// The rest of a sum, behind what stands before it and the signs of the operand that comes.
#[cycle(term)]
fn term_in<'a, 'b>(
    context: &Context<'_>,
    room: u32,
    bound: &[&[u8]],
    left: Before,
    signs: List<Sign>,
    tokens: &'a [Placed<'b>],
) -> ReadTerm<'a, 'b>
    requires { length bound.now + room ≤ 1000 }
    ensures { ReadsAs result (term_in context.now.stop (names_in bound.now context.now.vars) room left signs (places tokens.now)) }
{
    if room == 0 {
        Err(deep_term(context, bound, tokens))
    } else {
        term_at(context, room - 1, bound, left, signs, tokens)
    }
}

/// A term, and the tokens behind it. The error is the first fault from left to right, or want of memory.
#[tactic(auto, unfolding(crate::specs::TermReading::sum_in))]
pub fn sum_in<'a, 'b>(
    context: &Context<'_>,
    room: u32,
    bound: &[&[u8]],
    tokens: &'a [Placed<'b>],
) -> ReadTerm<'a, 'b>
    requires { length bound.now + room ≤ 1000 }
    ensures { ReadsAs result (sum_in context.now.stop (names_in bound.now context.now.vars) room (places tokens.now)) }
{
    let signs = List::new(context.alloc);
    term_in(context, room, bound, Before::Nothing, signs, tokens)
}

/// An operand: a variable, a literal, or a term in parentheses, and the tokens behind it. The error is the first fault
/// from left to right, or want of memory.
pub fn operand_in<'a, 'b>(
    context: &Context<'_>,
    room: u32,
    bound: &[&[u8]],
    tokens: &'a [Placed<'b>],
) -> ReadTerm<'a, 'b>
    requires { length bound.now + room ≤ 1000 }
    ensures { ReadsAs result (operand_in context.now.stop (names_in bound.now context.now.vars) room (places tokens.now)) }
{
    if room == 0 {
        Err(deep_term(context, bound, tokens))
    } else {
        operand_at(context, room - 1, bound, tokens)
    }
}

/// Terms with commas between, one at least, before each of which `room` constructs may be opened, and the tokens behind
/// them. The error is the first fault from left to right, or want of memory.
#[tactic(auto, using(crate::proofs::Parts::with_commas_failed, crate::proofs::Parts::turned, crate::proofs::Parts::stopped, crate::proofs::Parts::ended))]
pub fn sums_in<'a, 'b>(
    context: &Context<'_>,
    room: u32,
    bound: &[&[u8]],
    tokens: &'a [Placed<'b>],
) -> Result<(List<Term>, &'a [Placed<'b>]), TextFault>
    requires { length bound.now + room ≤ 1000 }
    ensures { ReadsAs result (with_commas (sum_in context.now.stop (names_in bound.now context.now.vars) room) (places tokens.now)) }
{
    let (first, behind_first) = sum_in(context, room, bound, tokens)?;
    let mut terms = List::new(context.alloc);
    terms.push(first)?;
    let count = behind_first.len();
    let mut rest = behind_first;
    for _i in 0..count {
        if !sees(Symbol::Comma, rest) {
            return Ok((terms, rest));
        }
        let (next, after) = sum_in(context, room, bound, behind(rest))?;
        terms.push(next)?;
        rest = after;
    }
    Ok((terms, rest))
}

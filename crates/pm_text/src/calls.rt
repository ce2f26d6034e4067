//! Calls, read from tokens.

ghost use Rattle.std.specs.Prelude.{◌≡◌, suc, ◌+◌, ◌<◌, ◌≤◌, length};
ghost use Rattle.pm_tokens.specs.Tokens.{places};
ghost use Rattle.pm_terms.specs.Steps.{ReadsAs, ReadsExactly, fault_or};
ghost use Rattle.pm_text.specs.FormulaReading as spec;
ghost use Rattle.pm_text.specs.Parts.{scope, table, inside, called};
ghost use Rattle.pm_terms.specs.declared.fault.TextFault.TheVariants.{Deep};

use crate::points::ReadFormula;
use pm_logic::{Formula, List, Term};
use pm_terms::{
    Callee, Context, TextFault, behind, callable_of, deep_term, offset, sees, sums_in, unexpected,
};
use pm_tokens::{Placed, Symbol};

/// Terms and the tokens behind them, or the first fault.
type ReadTerms<'a, 'b> = Result<(List<Term>, &'a [Placed<'b>]), TextFault>;

/// Between the parentheses.
#[tactic(auto, unfolding(crate::specs::FormulaReading::arguments))]
fn arguments<'a, 'b>(
    context: &Context<'_>,
    room: u32,
    bound: &[&[u8]],
    tokens: &'a [Placed<'b>],
) -> ReadTerms<'a, 'b>
    requires { length bound.now + room ≤ 1000 }
    ensures { ReadsAs result (spec.arguments context.now.stop (table context.now) (scope context.now bound.now) room (places tokens.now)) }
{
    if sees(Symbol::Close, tokens) {
        Ok((List::new(context.alloc), tokens))
    } else {
        sums_in(context, room, bound, tokens)
    }
}

/// At the closing parenthesis.
#[tactic(auto, unfolding(crate::specs::FormulaReading::call_end))]
fn call_end<'a, 'b>(
    context: &Context<'_>,
    callee: Callee,
    args: List<Term>,
    tokens: &'a [Placed<'b>],
) -> ReadFormula<'a, 'b>
    ensures { ReadsExactly result (spec.call_end context.now.stop (table context.now) (called callee) args (places tokens.now)) }
{
    if !sees(Symbol::Close, tokens) {
        return Err(unexpected(context.stop, tokens));
    }
    if args.len() != callee.arity as usize {
        return Err(TextFault::Arity(offset(context.stop, tokens)));
    }
    let pred = callee.index;
    Ok((Formula::Call { pred, args }, behind(tokens)))
}

/// The fault at the first token inside the parentheses, where no construct may be opened.
#[tactic(auto, unfolding(crate::specs::FormulaReading::deep_call, crate::specs::FormulaReading::call_end))]
fn deep_call(
    context: &Context<'_>,
    bound: &[&[u8]],
    callee: Callee,
    tokens: &[Placed<'_>],
) -> TextFault
    requires { length bound.now ≤ 1000 }
    ensures { result ≡ spec.deep_call context.now.stop (table context.now) (scope context.now bound.now) (called callee) (places tokens.now) }
{
    if !sees(Symbol::Close, tokens) {
        return deep_term(context, bound, tokens);
    }
    let at = offset(context.stop, tokens);
    if callee.arity == 0 {
        TextFault::Deep(at)
    } else {
        TextFault::Arity(at)
    }
}

/// From behind the opening parenthesis on, where one construct more than `room` may be opened.
#[tactic(auto, unfolding(crate::specs::FormulaReading::call_in))]
fn call_within<'a, 'b>(
    context: &Context<'_>,
    room: u32,
    bound: &[&[u8]],
    callee: Callee,
    tokens: &'a [Placed<'b>],
) -> ReadFormula<'a, 'b>
    requires { length bound.now + room < 1000 }
    ensures { ReadsAs result (spec.call_in context.now.stop (table context.now) (scope context.now bound.now) (suc room) (called callee) (places tokens.now)) }
{
    let (args, rest) = arguments(context, room + 1, bound, tokens)?;
    call_end(context, callee, args, rest)
}

/// From behind the opening parenthesis on.
fn call_in<'a, 'b>(
    context: &Context<'_>,
    room: u32,
    bound: &[&[u8]],
    callee: Callee,
    tokens: &'a [Placed<'b>],
) -> ReadFormula<'a, 'b>
    requires { length bound.now + room ≤ 1000 }
    ensures { ReadsAs result (spec.call_in context.now.stop (table context.now) (scope context.now bound.now) room (called callee) (places tokens.now)) }
{
    if room == 0 {
        Err(deep_call(context, bound, callee, tokens))
    } else {
        call_within(context, room - 1, bound, callee, tokens)
    }
}

/// A call, from behind the opening parenthesis on, of the predicate of this name, which stands at `at`.
#[tactic(auto, unfolding(crate::specs::FormulaReading::call_at, crate::specs::FormulaReading::callable_at))]
pub fn call_at<'a, 'b>(
    context: &Context<'_>,
    room: u32,
    bound: &[&[u8]],
    name: &[u8],
    at: usize,
    tokens: &'a [Placed<'b>],
) -> ReadFormula<'a, 'b>
    requires { length bound.now + room ≤ 1000 }
    ensures { ReadsAs result (spec.call_at context.now.stop (table context.now) (inside context.now room) room (scope context.now bound.now) name.now at (places tokens.now)) }
{
    match callable_of(context, name) {
        Some(callee) => call_in(context, room, bound, callee, tokens),
        None => Err(TextFault::Unbound(at as u64)),
    }
}

/// The fault at the name of a call, where no construct may be opened.
#[tactic(auto, unfolding(crate::specs::FormulaReading::callable_at))]
pub fn deep_name(context: &Context<'_>, name: &[u8], at: usize) -> TextFault
    ensures { result ≡ fault_or (Deep at) (spec.callable_at context.now.stop (table context.now) name.now at) }
{
    match callable_of(context, name) {
        Some(_) => TextFault::Deep(at as u64),
        None => TextFault::Unbound(at as u64),
    }
}

//! Points-to, read from tokens.

ghost use Rattle.std.specs.Prelude.{◌≡◌, suc, ◌+◌, ◌<◌, ◌≤◌, length};
ghost use Rattle.pm_tokens.specs.Tokens.{places};
ghost use Rattle.pm_terms.specs.Steps.{ReadsAs};
ghost use Rattle.pm_text.specs.FormulaReading as spec;
ghost use Rattle.pm_text.specs.Parts.{scope, table, inside};

use crate::units::units;
use pm_logic::{Formula, Term};
use pm_terms::{Context, TextFault, after_group, deep_term, expect, offset, operand_in, sees};
use pm_tokens::{Placed, Symbol};

/// A formula and the tokens behind it, or the first fault.
pub type ReadFormula<'a, 'b> = Result<(Formula, &'a [Placed<'b>]), TextFault>;

/// Whether the parenthesis before these tokens begins a term.
#[tactic(auto, unfolding(crate::specs::FormulaReading::begins_location))]
pub fn begins_location(tokens: &[Placed<'_>]) -> bool
    ensures { result ≡ spec.begins_location (places tokens.now) }
{
    sees(Symbol::PointsTo, after_group(tokens))
}

/// The fault at the first token behind the sign.
#[tactic(auto, unfolding(crate::specs::FormulaReading::deep_value))]
fn deep_value(context: &Context<'_>, bound: &[&[u8]], tokens: &[Placed<'_>]) -> TextFault
    requires { length bound.now ≤ 1000 }
    ensures { result ≡ spec.deep_value context.now.stop (table context.now) (scope context.now bound.now) (places tokens.now) }
{
    if sees(Symbol::OpenBrace, tokens) {
        TextFault::Deep(offset(context.stop, tokens))
    } else {
        deep_term(context, bound, tokens)
    }
}

/// Behind the sign, where one construct more than `room` may be opened.
#[tactic(auto, unfolding(crate::specs::FormulaReading::value_in))]
fn value_at<'a, 'b>(
    context: &Context<'_>,
    room: u32,
    bound: &[&[u8]],
    loc: Term,
    tokens: &'a [Placed<'b>],
) -> ReadFormula<'a, 'b>
    requires { length bound.now + room < 1000 }
    ensures { ReadsAs result (spec.value_in context.now.stop (table context.now) (scope context.now bound.now) (suc room) loc (places tokens.now)) }
{
    let (units, rest) = units(context.stop, tokens)?;
    let (val, rest) = operand_in(context, room + 1, bound, rest)?;
    Ok((Formula::Pts { loc, units, val }, rest))
}

/// Behind the sign, where `room` constructs may be opened.
fn value_in<'a, 'b>(
    context: &Context<'_>,
    room: u32,
    bound: &[&[u8]],
    loc: Term,
    tokens: &'a [Placed<'b>],
) -> ReadFormula<'a, 'b>
    requires { length bound.now + room ≤ 1000 }
    ensures { ReadsAs result (spec.value_in context.now.stop (table context.now) (scope context.now bound.now) room loc (places tokens.now)) }
{
    if room == 0 {
        Err(deep_value(context, bound, tokens))
    } else {
        value_at(context, room - 1, bound, loc, tokens)
    }
}

/// A points-to, behind whose sign `room` constructs may be opened.
#[tactic(auto, unfolding(crate::specs::FormulaReading::points_to_at))]
pub fn points_to<'a, 'b>(
    context: &Context<'_>,
    room: u32,
    bound: &[&[u8]],
    tokens: &'a [Placed<'b>],
) -> ReadFormula<'a, 'b>
    requires { length bound.now + room < 1000 }
    ensures { ReadsAs result (spec.points_to_at context.now.stop (table context.now) (inside context.now room) room (scope context.now bound.now) (places tokens.now)) }
{
    let (loc, rest) = operand_in(context, room + 1, bound, tokens)?;
    let rest = expect(Symbol::PointsTo, context.stop, rest)?;
    value_in(context, room, bound, loc, rest)
}

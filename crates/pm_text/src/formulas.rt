//! Formulas, read from tokens. `room` is how many constructs may still be opened, and `bound` are the names bound in the
//! text, the innermost last.

ghost use Rattle.std.specs.Prelude.{◌≡◌, suc, ◌+◌, ◌<◌, ◌≤◌, ◌∷◌, length, drop, OnOk};
ghost use Rattle.pm_logic.specs.declared.formula.Formula.TheVariants.{Pure as Fact};
ghost use Rattle.pm_tokens.specs.declared.symbol.Symbol.TheVariants.{Close, ClosePure};
ghost use Rattle.pm_tokens.specs.Tokens.{places};
ghost use Rattle.pm_terms.specs.declared.level.PureLevel.TheVariants as pure_level;
ghost use Rattle.pm_terms.specs.PureReading.{pure_in};
ghost use Rattle.pm_terms.specs.Steps.{ReadsAs, closed_by, made};
ghost use Rattle.pm_text.specs.declared.level.Level.TheVariants as level;
ghost use Rattle.pm_text.specs.FormulaReading as spec;
ghost use Rattle.pm_text.specs.Parts.{scope, table, inside, opened, level_under, under, ahead};

use crate::calls::{call_at, deep_name};
use crate::infixes::{joined, next_infix, quantified, right_of};
use crate::level::{Binder, Infix, Level};
use crate::openings::{Modality, Opening, is_formula_only, level_under, opening_of, under};
use crate::points::{ReadFormula, begins_location, points_to};
use pm_logic::{Formula, Pure};
use pm_terms::{Context, PureLevel, TextFault, behind, deep_term, expect, pure_in, sees};
use pm_tokens::{Placed, Symbol, Token};
use smallvec::SmallVec;

/// The names bound in a text, the innermost last.
pub type Bound<'b> = SmallVec<&'b [u8], 8>;

// ---- the fault where as many constructs are open as may be

/// At an operand.
#[tactic(auto, unfolding(crate::specs::FormulaReading::deep_operand), using(crate::proofs::SymbolCases::deep_only, crate::proofs::SymbolCases::deep_location))]
fn deep_operand(context: &Context<'_>, bound: &[&[u8]], tokens: &[Placed<'_>]) -> TextFault
    requires { length bound.now ≤ 1000 }
    ensures { result ≡ spec.deep_operand context.now.stop (table context.now) (scope context.now bound.now) (places tokens.now) }
{
    let [first, rest @ ..] = tokens else {
        return deep_term(context, bound, tokens);
    };
    match first.token {
        Token::Name(name) => {
            if sees(Symbol::Open, rest) {
                deep_name(context, name, first.at)
            } else {
                deep_term(context, bound, tokens)
            }
        }
        Token::Number(_) => deep_term(context, bound, tokens),
        Token::Symbol(symbol) => {
            if is_formula_only(opening_of(symbol)) {
                TextFault::Deep(first.at as u64)
            } else {
                deep_term(context, bound, tokens)
            }
        }
    }
}

/// At a name that a quantifier binds.
#[tactic(auto, unfolding(crate::specs::FormulaReading::deep_binder))]
fn deep_binder(context: &Context<'_>, tokens: &[Placed<'_>]) -> TextFault
    ensures { result ≡ spec.deep_binder context.now.stop (table context.now) (places tokens.now) }
{
    let [first, ..] = tokens else {
        return TextFault::Unexpected(context.stop as u64);
    };
    match first.token {
        Token::Name(_) => TextFault::Deep(first.at as u64),
        Token::Number(_) => TextFault::Unexpected(first.at as u64),
        Token::Symbol(_) => TextFault::Unexpected(first.at as u64),
    }
}

#[tactic(auto, unfolding(crate::specs::FormulaReading::deep_formula))]
fn deep_formula(
    context: &Context<'_>,
    level: Level,
    bound: &[&[u8]],
    tokens: &[Placed<'_>],
) -> TextFault
    requires { length bound.now ≤ 1000 }
    ensures { result ≡ spec.deep_formula context.now.stop (table context.now) level (scope context.now bound.now) (places tokens.now) }
{
    match level {
        Level::Wands => deep_operand(context, bound, tokens),
        Level::Ors => deep_operand(context, bound, tokens),
        Level::Stars => deep_operand(context, bound, tokens),
        Level::Prefixes => deep_operand(context, bound, tokens),
        Level::Names(_) => deep_binder(context, tokens),
        Level::Updates => deep_operand(context, bound, tokens),
    }
}

// ---- one level, inside which `room` constructs may be opened

/// A pure formula and its closing sign, from behind the one that opens.
#[tactic(auto, unfolding(pm_terms::specs::Steps::closed_by))]
fn fact<'a, 'b>(
    context: &Context<'_>,
    room: u32,
    bound: &[&[u8]],
    tokens: &'a [Placed<'b>],
) -> ReadFormula<'a, 'b>
    requires { length bound.now + room < 1000 }
    ensures { ReadsAs result (closed_by ClosePure context.now.stop (made Fact (pure_in context.now.stop (scope context.now bound.now) (suc room) pure_level.Ors (places tokens.now)))) }
{
    let (inner, rest) = pure_in(context, room + 1, PureLevel::Ors, bound, tokens)?;
    let rest = expect(Symbol::ClosePure, context.stop, rest)?;
    Ok((Formula::Pure(inner), rest))
}

/// A formula and its closing parenthesis, from behind the one that opens.
#[cycle(formulas)]
#[tactic(auto, unfolding(pm_terms::specs::Steps::closed_by))]
fn group<'a, 'b>(
    context: &Context<'_>,
    room: u32,
    bound: &mut Bound<'b>,
    tokens: &'a [Placed<'b>],
) -> ReadFormula<'a, 'b>
    requires { length bound.old.items + room < 1000 }
    ensures reads { ReadsAs result (closed_by Close context.now.stop (inside context.now room level.Wands (scope context.now bound.old.items) (places tokens.now))) }
    ensures keeps { OnOk result (bound.new.items ≡ bound.old.items) }
{
    let (inner, rest) = formula_in(context, room, Level::Wands, bound, tokens)?;
    let rest = expect(Symbol::Close, context.stop, rest)?;
    Ok((inner, rest))
}

/// A formula under a modality, from behind its sign on.
#[cycle(formulas)]
fn modal<'a, 'b>(
    context: &Context<'_>,
    room: u32,
    modality: Modality,
    bound: &mut Bound<'b>,
    tokens: &'a [Placed<'b>],
) -> ReadFormula<'a, 'b>
    requires { length bound.old.items + room < 1000 }
    ensures reads { ReadsAs result (made (under modality) (inside context.now room (level_under modality) (scope context.now bound.old.items) (places tokens.now))) }
    ensures keeps { OnOk result (bound.new.items ≡ bound.old.items) }
{
    let (inner, rest) = formula_in(context, room, level_under(modality), bound, tokens)?;
    Ok((under(context.alloc, modality, inner)?, rest))
}

/// An operand that begins with a symbol that opens this.
#[cycle(formulas)]
#[tactic(auto, unfolding(crate::specs::Parts::opened))]
fn opened<'a, 'b>(
    context: &Context<'_>,
    room: u32,
    opening: Opening,
    bound: &mut Bound<'b>,
    tokens: &'a [Placed<'b>],
) -> ReadFormula<'a, 'b>
    requires { length bound.old.items + room < 1000 }
    ensures reads { ReadsAs result (opened context.now.stop (table context.now) (inside context.now room) room (scope context.now bound.old.items) opening (places tokens.now)) }
    ensures keeps { OnOk result (bound.new.items ≡ bound.old.items) }
{
    let rest = behind(tokens);
    match opening {
        Opening::Modal(modality) => modal(context, room, modality, bound, rest),
        Opening::Quantifier(binder) => formula_in(context, room, Level::Names(binder), bound, rest),
        Opening::Group => {
            if begins_location(rest) {
                points_to(context, room, bound.as_slice(), tokens)
            } else {
                group(context, room, bound, rest)
            }
        }
        Opening::Fact => fact(context, room, bound.as_slice(), rest),
        Opening::Truth => Ok((Formula::Pure(Pure::True), rest)),
        Opening::Falsehood => Ok((Formula::Pure(Pure::False), rest)),
        Opening::Location => points_to(context, room, bound.as_slice(), tokens),
    }
}

/// A formula that no infix joins to another.
#[cycle(formulas)]
#[tactic(auto, unfolding(crate::specs::FormulaReading::prefix_at), using(crate::proofs::SymbolCases::opened_symbol))]
fn prefix_at<'a, 'b>(
    context: &Context<'_>,
    room: u32,
    bound: &mut Bound<'b>,
    tokens: &'a [Placed<'b>],
) -> ReadFormula<'a, 'b>
    requires { length bound.old.items + room < 1000 }
    ensures reads { ReadsAs result (spec.prefix_at context.now.stop (table context.now) (inside context.now room) room (scope context.now bound.old.items) (places tokens.now)) }
    ensures keeps { OnOk result (bound.new.items ≡ bound.old.items) }
{
    let [first, rest @ ..] = tokens else {
        return points_to(context, room, bound.as_slice(), tokens);
    };
    match first.token {
        Token::Symbol(symbol) => opened(context, room, opening_of(symbol), bound, tokens),
        Token::Number(_) => points_to(context, room, bound.as_slice(), tokens),
        Token::Name(name) => {
            if sees(Symbol::Open, rest) {
                call_at(
                    context,
                    room,
                    bound.as_slice(),
                    name,
                    first.at,
                    behind(rest),
                )
            } else {
                points_to(context, room, bound.as_slice(), tokens)
            }
        }
    }
}

/// From the right side of an infix on, whose left operand is read.
#[cycle(formulas)]
fn right_side<'a, 'b>(
    context: &Context<'_>,
    room: u32,
    sign: Infix,
    bound: &mut Bound<'b>,
    left: Formula,
    tokens: &'a [Placed<'b>],
) -> ReadFormula<'a, 'b>
    requires { length bound.old.items + room < 1000 }
    ensures reads { ReadsAs result (made (spec.joined sign left) (inside context.now room (spec.right_of sign) (scope context.now bound.old.items) (places tokens.now))) }
    ensures keeps { OnOk result (bound.new.items ≡ bound.old.items) }
{
    let (right, rest) = formula_in(context, room, right_of(sign), bound, tokens)?;
    Ok((joined(context.alloc, sign, left, right)?, rest))
}

/// Behind the left operand of an infix of this level, if there is one.
#[cycle(formulas)]
#[tactic(auto, unfolding(crate::specs::FormulaReading::infix_at, crate::specs::FormulaReading::infix_then))]
fn infix_at<'a, 'b>(
    context: &Context<'_>,
    room: u32,
    level: Level,
    bound: &mut Bound<'b>,
    left: Formula,
    tokens: &'a [Placed<'b>],
) -> ReadFormula<'a, 'b>
    requires { length bound.old.items + room < 1000 }
    ensures reads { ReadsAs result (spec.infix_at context.now.stop (table context.now) (inside context.now room) room (scope context.now bound.old.items) level left (places tokens.now)) }
    ensures keeps { OnOk result (bound.new.items ≡ bound.old.items) }
{
    match next_infix(level, tokens) {
        Some(sign) => right_side(context, room, sign, bound, left, behind(tokens)),
        None => Ok((left, tokens)),
    }
}

/// Behind a name that a quantifier binds: a further name, or a comma and the body.
#[cycle(formulas)]
#[tactic(auto, unfolding(crate::specs::FormulaReading::behind_name, crate::specs::FormulaReading::formula_at))]
fn behind_name<'a, 'b>(
    context: &Context<'_>,
    room: u32,
    binder: Binder,
    bound: &mut Bound<'b>,
    tokens: &'a [Placed<'b>],
) -> ReadFormula<'a, 'b>
    requires { length bound.old.items + room < 1000 }
    ensures reads { ReadsAs result (spec.behind_name context.now.stop (table context.now) (inside context.now room) room (scope context.now bound.old.items) binder (places tokens.now)) }
    ensures keeps { OnOk result (bound.new.items ≡ bound.old.items) }
{
    let [first, rest @ ..] = tokens else {
        return Err(TextFault::Unexpected(context.stop as u64));
    };
    match first.token {
        Token::Name(_) => formula_in(context, room, Level::Names(binder), bound, tokens),
        Token::Number(_) => Err(TextFault::Unexpected(first.at as u64)),
        Token::Symbol(symbol) => {
            if symbol == Symbol::Comma {
                formula_at(context, room, Level::Wands, bound, rest)
            } else {
                Err(TextFault::Unexpected(first.at as u64))
            }
        }
    }
}

/// From behind a name on that a quantifier binds.
#[cycle(formulas)]
#[tactic(auto, using(pm_terms::proofs::Bound::names_in_push))]
fn with_name<'a, 'b>(
    context: &Context<'_>,
    room: u32,
    binder: Binder,
    bound: &mut Bound<'b>,
    name: &'b [u8],
    tokens: &'a [Placed<'b>],
) -> ReadFormula<'a, 'b>
    requires { length bound.old.items + room < 999 }
    ensures reads { ReadsAs result (made (spec.quantified binder) (spec.behind_name context.now.stop (table context.now) (inside context.now room) room (name.now ∷ scope context.now bound.old.items) binder (places tokens.now))) }
    ensures keeps { OnOk result (bound.new.items ≡ bound.old.items) }
{
    bound.push(name)?;
    let (body, rest) = behind_name(context, room, binder, bound, tokens)?;
    bound.pop();
    Ok((quantified(context.alloc, binder, body)?, rest))
}

/// From the first name that a quantifier binds on.
#[cycle(formulas)]
#[tactic(auto, unfolding(crate::specs::FormulaReading::names_at))]
fn names_at<'a, 'b>(
    context: &Context<'_>,
    room: u32,
    binder: Binder,
    bound: &mut Bound<'b>,
    tokens: &'a [Placed<'b>],
) -> ReadFormula<'a, 'b>
    requires { length bound.old.items + room < 999 }
    ensures reads { ReadsAs result (spec.names_at context.now.stop (table context.now) (inside context.now room) room (scope context.now bound.old.items) binder (places tokens.now)) }
    ensures keeps { OnOk result (bound.new.items ≡ bound.old.items) }
{
    let [first, rest @ ..] = tokens else {
        return Err(TextFault::Unexpected(context.stop as u64));
    };
    match first.token {
        Token::Name(name) => with_name(context, room, binder, bound, name, rest),
        Token::Number(_) => Err(TextFault::Unexpected(first.at as u64)),
        Token::Symbol(_) => Err(TextFault::Unexpected(first.at as u64)),
    }
}

/// This of a formula, inside which `room` constructs may be opened.
#[cycle(formulas)]
#[tactic(auto, unfolding(crate::specs::FormulaReading::formula_at, crate::specs::FormulaReading::wands_at, crate::specs::FormulaReading::ors_at, crate::specs::FormulaReading::stars_at))]
fn formula_at<'a, 'b>(
    context: &Context<'_>,
    room: u32,
    level: Level,
    bound: &mut Bound<'b>,
    tokens: &'a [Placed<'b>],
) -> ReadFormula<'a, 'b>
    requires { length bound.old.items + room + ahead level < 1000 }
    ensures reads { ReadsAs result (spec.formula_at context.now.stop (table context.now) (inside context.now room) room (scope context.now bound.old.items) level (places tokens.now)) }
    ensures keeps { OnOk result (bound.new.items ≡ bound.old.items) }
{
    match level {
        Level::Prefixes => prefix_at(context, room, bound, tokens),
        Level::Stars => {
            let (left, rest) = prefix_at(context, room, bound, tokens)?;
            infix_at(context, room, Level::Stars, bound, left, rest)
        }
        Level::Ors => {
            let (left, rest) = formula_at(context, room, Level::Stars, bound, tokens)?;
            infix_at(context, room, Level::Ors, bound, left, rest)
        }
        Level::Wands => {
            let (left, rest) = formula_at(context, room, Level::Ors, bound, tokens)?;
            infix_at(context, room, Level::Wands, bound, left, rest)
        }
        Level::Names(binder) => names_at(context, room, binder, bound, tokens),
        Level::Updates => formula_in(context, room, Level::Wands, bound, tokens),
    }
}

/// This of a formula, and the tokens behind it, where `room` constructs may be opened. `bound` are the names bound in the
/// text before it, the innermost last, and stand again afterwards. After an error nothing is read, and `bound` isn't to
/// be used again.
#[cycle(formulas)]
pub fn formula_in<'a, 'b>(
    context: &Context<'_>,
    room: u32,
    level: Level,
    bound: &mut Bound<'b>,
    tokens: &'a [Placed<'b>],
) -> ReadFormula<'a, 'b>
    requires { length bound.old.items + room < 1000 }
    ensures reads { ReadsAs result (spec.formula_in context.now.stop (table context.now) room level (scope context.now bound.old.items) (places tokens.now)) }
    ensures keeps { OnOk result (bound.new.items ≡ bound.old.items) }
{
    if room == 0 {
        Err(deep_formula(context, level, bound.as_slice(), tokens))
    } else {
        formula_at(context, room - 1, level, bound, tokens)
    }
}

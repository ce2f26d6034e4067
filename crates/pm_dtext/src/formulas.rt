//! Formulas. Each reader takes how many levels there may be, and how many variables there are.

ghost use Rattle.std.specs.Prelude.{◌≡◌, ◌+◌, ◌<◌, ◌≤◌, length, IfOk};
ghost use Rattle.pm_logic.specs.declared.limits.TheConstants.{MAX_TABLE};
ghost use Rattle.pm_logic.specs.declared.formula.Formula.TheVariants as variants;
ghost use Rattle.pm_logic.specs.declared.formula.TheConstants.{BOUND};
ghost use Rattle.pm_rules.specs.Shapes.{one, two};
ghost use Rattle.pm_dtext.specs.Texts.{ReadsAs, ReadsTwoAs, told};
ghost use Rattle.pm_dtext.specs.Reading.{part_at, part_as, pair_at, parts_at, term_at, pure_at, variables_under, points_at, call_at, formula_under, formula_at};

use crate::arities::{Arities, predicate};
use crate::fault::{Fault, ReadFault};
use crate::pures::pure;
use crate::signs::{FormulaSign, formula_sign};
use crate::terms;
use crate::words::{share, skip};
use pm_logic::{Formula, Memory, all, and, ex, imp, later, or, pers, sep, upd, wand};
use pm_rules::{Binary, Unary};
use std::alloc::Global;

/// The formula under the sign.
fn wrapped(alloc: Global, sign: Unary, f: Formula) -> Result<Formula, Memory>
    ensures { IfOk result (λ made. made ≡ one sign f) }
{
    match sign {
        Unary::All => all(alloc, f),
        Unary::Ex => ex(alloc, f),
        Unary::Later => later(alloc, f),
        Unary::Pers => pers(alloc, f),
        Unary::Upd => upd(alloc, f),
    }
}

/// The two formulas under the sign.
fn joined(alloc: Global, sign: Binary, left: Formula, right: Formula) -> Result<Formula, Memory>
    ensures { IfOk result (λ made. made ≡ two sign left right) }
{
    match sign {
        Binary::Sep => sep(alloc, left, right),
        Binary::Wand => wand(alloc, left, right),
        Binary::And => and(alloc, left, right),
        Binary::Or => or(alloc, left, right),
        Binary::Imp => imp(alloc, left, right),
    }
}

/// How many variables there are under the sign.
fn variables_under(sign: Unary, vars: u32) -> u32
    requires { vars < BOUND }
    ensures { result ≡ variables_under sign vars }
{
    match sign {
        Unary::All | Unary::Ex => vars + 1,
        Unary::Later | Unary::Pers | Unary::Upd => vars,
    }
}

/// The pure formula behind its word.
#[tactic(auto, unfolding(crate::specs::Reading::part_as, crate::specs::Reading::part_at))]
fn fact<'a>(
    alloc: Global,
    levels: u32,
    vars: u32,
    bytes: &'a [u8],
) -> Result<(Formula, &'a [u8]), ReadFault>
    ensures { ReadsAs result (part_as variants.Pure (pure_at levels vars) bytes.now) }
{
    let (p, rest) = pure(alloc, levels, vars, skip(b' ', bytes)?)?;
    Ok((Formula::Pure(p), rest))
}

/// The points-to behind its word.
#[tactic(auto, unfolding(crate::specs::Reading::points_at))]
fn points(
    alloc: Global,
    levels: u32,
    vars: u32,
    bytes: &[u8],
) -> Result<(Formula, &[u8]), ReadFault>
    ensures { ReadsAs result (points_at (term_at levels vars) bytes.now) }
{
    let (loc, rest) = terms::part(alloc, levels, vars, bytes)?;
    let (units, rest) = share(rest)?;
    let (val, rest) = terms::part(alloc, levels, vars, rest)?;
    Ok((Formula::Pts { loc, units, val }, rest))
}

/// The call behind its word.
#[tactic(auto, unfolding(crate::specs::Reading::call_at, crate::specs::Reading::part_at))]
fn call<'a>(
    alloc: Global,
    arities: Arities,
    levels: u32,
    vars: u32,
    bytes: &'a [u8],
) -> Result<(Formula, &'a [u8]), ReadFault>
    requires { length (told arities) ≤ MAX_TABLE }
    ensures { ReadsAs result (call_at (told arities.entry) (term_at levels vars) bytes.now) }
{
    let ((pred, arity), rest) = predicate(arities, skip(b' ', bytes)?)?;
    let (args, rest) = terms::terms(alloc, levels, vars, arity, rest)?;
    Ok((Formula::Call { pred, args }, rest))
}

/// The formula at the front, and what follows it.
#[cycle(formula)]
#[tactic(auto, using(crate::proofs::Levels::formula_none, crate::proofs::Levels::formula_more))]
pub fn formula<'a>(
    alloc: Global,
    arities: Arities,
    levels: u32,
    vars: u32,
    bytes: &'a [u8],
) -> Result<(Formula, &'a [u8]), ReadFault>
    requires table { length (told arities) ≤ MAX_TABLE }
    requires within { vars + levels ≤ BOUND }
    ensures { ReadsAs result (formula_at (told arities.entry) levels vars bytes.now) }
{
    let (sign, rest) = formula_sign(bytes)?;
    if levels == 0 {
        return Err(ReadFault::Fault(Fault::Deep(bytes.len())));
    }
    formula_under(alloc, arities, sign, levels - 1, vars, rest)
}

/// The formula behind its sign. What a sign takes is read by a function of its own, so that a level takes little stack.
#[cycle(formula)]
#[tactic(auto, unfolding(crate::specs::Reading::formula_under))]
fn formula_under<'a>(
    alloc: Global,
    arities: Arities,
    sign: FormulaSign,
    levels: u32,
    vars: u32,
    bytes: &'a [u8],
) -> Result<(Formula, &'a [u8]), ReadFault>
    requires table { length (told arities) ≤ MAX_TABLE }
    requires within { vars + levels < BOUND }
    ensures { ReadsAs result (formula_under (told arities.entry) sign vars (pure_at levels vars) (term_at levels vars) (formula_at (told arities.entry) levels) bytes.now) }
{
    match sign {
        FormulaSign::Pure => fact(alloc, levels, vars, bytes),
        FormulaSign::Two(sign) => two_under(alloc, arities, sign, levels, vars, bytes),
        FormulaSign::One(sign) => one_under(alloc, arities, sign, levels, vars, bytes),
        FormulaSign::Pts => points(alloc, levels, vars, bytes),
        FormulaSign::Call => call(alloc, arities, levels, vars, bytes),
    }
}

#[cycle(formula)]
#[tactic(auto, unfolding(crate::specs::Reading::parts_at))]
fn two_under<'a>(
    alloc: Global,
    arities: Arities,
    sign: Binary,
    levels: u32,
    vars: u32,
    bytes: &'a [u8],
) -> Result<(Formula, &'a [u8]), ReadFault>
    requires table { length (told arities) ≤ MAX_TABLE }
    requires within { vars + levels < BOUND }
    ensures { ReadsAs result (parts_at (two sign) (formula_at (told arities.entry) levels vars) bytes.now) }
{
    let (left, right, rest) = two_formulas(alloc, arities, levels, vars, bytes)?;
    Ok((joined(alloc, sign, left, right)?, rest))
}

#[cycle(formula)]
#[tactic(auto, unfolding(crate::specs::Reading::part_as))]
fn one_under<'a>(
    alloc: Global,
    arities: Arities,
    sign: Unary,
    levels: u32,
    vars: u32,
    bytes: &'a [u8],
) -> Result<(Formula, &'a [u8]), ReadFault>
    requires table { length (told arities) ≤ MAX_TABLE }
    requires within { vars + levels < BOUND }
    ensures { ReadsAs result (part_as (one sign) (formula_at (told arities.entry) levels (variables_under sign vars)) bytes.now) }
{
    let under = variables_under(sign, vars);
    let (f, rest) = part(alloc, arities, levels, under, bytes)?;
    Ok((wrapped(alloc, sign, f)?, rest))
}

/// A formula behind a blank.
#[cycle(formula)]
#[tactic(auto, unfolding(crate::specs::Reading::part_at))]
pub fn part<'a>(
    alloc: Global,
    arities: Arities,
    levels: u32,
    vars: u32,
    bytes: &'a [u8],
) -> Result<(Formula, &'a [u8]), ReadFault>
    requires table { length (told arities) ≤ MAX_TABLE }
    requires within { vars + levels ≤ BOUND }
    ensures { ReadsAs result (part_at (formula_at (told arities.entry) levels vars) bytes.now) }
{
    formula(alloc, arities, levels, vars, skip(b' ', bytes)?)
}

/// Two formulas, each behind a blank.
#[cycle(formula)]
#[tactic(auto, unfolding(crate::specs::Reading::pair_at))]
pub fn two_formulas<'a>(
    alloc: Global,
    arities: Arities,
    levels: u32,
    vars: u32,
    bytes: &'a [u8],
) -> Result<(Formula, Formula, &'a [u8]), ReadFault>
    requires table { length (told arities) ≤ MAX_TABLE }
    requires within { vars + levels ≤ BOUND }
    ensures { ReadsTwoAs result (pair_at (formula_at (told arities.entry) levels vars) bytes.now) }
{
    let (left, rest) = part(alloc, arities, levels, vars, bytes)?;
    let (right, rest) = part(alloc, arities, levels, vars, rest)?;
    Ok((left, right, rest))
}

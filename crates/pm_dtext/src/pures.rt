//! Pure formulas. Each reader takes how many levels there may be, and how many variables there are.

ghost use Rattle.std.specs.Prelude.{◌≡◌};
ghost use Rattle.pm_dtext.specs.Texts.{ReadsAs, ReadsTwoAs};
ghost use Rattle.pm_dtext.specs.Reading.{part_at, pair_at, part_as, parts_at, term_at, pure_under, pure_at};
ghost use Rattle.pm_logic.specs.declared.formula.Pure.TheViews as pure;
ghost use Rattle.pm_logic.specs.declared.formula.Pure.TheVariants as variants;

use crate::fault::{Fault, ReadFault};
use crate::signs::{PureSign, pure_sign};
use crate::terms::two_terms;
use crate::words::skip;
use pm_logic::{Pure, pure_and, pure_not, pure_or};
use std::alloc::Global;

/// The pure formula at the front, and what follows it.
#[cycle(pure)]
#[tactic(auto, using(crate::proofs::Levels::pure_none, crate::proofs::Levels::pure_more))]
pub fn pure(alloc: Global, levels: u32, vars: u32, bytes: &[u8]) -> Result<(Pure, &[u8]), ReadFault>
    ensures { ReadsAs result (pure_at levels vars bytes.now) }
{
    let (sign, rest) = pure_sign(bytes)?;
    if levels == 0 {
        return Err(ReadFault::Fault(Fault::Deep(bytes.len())));
    }
    pure_under(alloc, sign, levels - 1, vars, rest)
}

/// The pure formula behind its sign. What a sign takes is read by a function of its own, so that a level takes little
/// stack.
#[cycle(pure)]
#[tactic(auto, unfolding(crate::specs::Reading::pure_under))]
fn pure_under(
    alloc: Global,
    sign: PureSign,
    levels: u32,
    vars: u32,
    bytes: &[u8],
) -> Result<(Pure, &[u8]), ReadFault>
    ensures { ReadsAs result (pure_under sign (term_at levels vars) (pure_at levels vars) bytes.now) }
{
    match sign {
        PureSign::True => Ok((Pure::True, bytes)),
        PureSign::False => Ok((Pure::False, bytes)),
        PureSign::Eq => equation(alloc, levels, vars, bytes),
        PureSign::Le => at_most(alloc, levels, vars, bytes),
        PureSign::Lt => below(alloc, levels, vars, bytes),
        PureSign::And => both(alloc, levels, vars, bytes),
        PureSign::Or => either(alloc, levels, vars, bytes),
        PureSign::Not => negation(alloc, levels, vars, bytes),
    }
}

#[tactic(auto, unfolding(crate::specs::Reading::parts_at))]
fn equation(alloc: Global, levels: u32, vars: u32, bytes: &[u8]) -> Result<(Pure, &[u8]), ReadFault>
    ensures { ReadsAs result (parts_at variants.Eq (term_at levels vars) bytes.now) }
{
    let (s, t, rest) = two_terms(alloc, levels, vars, bytes)?;
    Ok((Pure::Eq(s, t), rest))
}

#[tactic(auto, unfolding(crate::specs::Reading::parts_at))]
fn at_most(alloc: Global, levels: u32, vars: u32, bytes: &[u8]) -> Result<(Pure, &[u8]), ReadFault>
    ensures { ReadsAs result (parts_at variants.Le (term_at levels vars) bytes.now) }
{
    let (s, t, rest) = two_terms(alloc, levels, vars, bytes)?;
    Ok((Pure::Le(s, t), rest))
}

#[tactic(auto, unfolding(crate::specs::Reading::parts_at))]
fn below(alloc: Global, levels: u32, vars: u32, bytes: &[u8]) -> Result<(Pure, &[u8]), ReadFault>
    ensures { ReadsAs result (parts_at variants.Lt (term_at levels vars) bytes.now) }
{
    let (s, t, rest) = two_terms(alloc, levels, vars, bytes)?;
    Ok((Pure::Lt(s, t), rest))
}

#[cycle(pure)]
#[tactic(auto, unfolding(crate::specs::Reading::parts_at))]
fn both(alloc: Global, levels: u32, vars: u32, bytes: &[u8]) -> Result<(Pure, &[u8]), ReadFault>
    ensures { ReadsAs result (parts_at pure.And (pure_at levels vars) bytes.now) }
{
    let (a, b, rest) = two_pures(alloc, levels, vars, bytes)?;
    Ok((pure_and(alloc, a, b)?, rest))
}

#[cycle(pure)]
#[tactic(auto, unfolding(crate::specs::Reading::parts_at))]
fn either(alloc: Global, levels: u32, vars: u32, bytes: &[u8]) -> Result<(Pure, &[u8]), ReadFault>
    ensures { ReadsAs result (parts_at pure.Or (pure_at levels vars) bytes.now) }
{
    let (a, b, rest) = two_pures(alloc, levels, vars, bytes)?;
    Ok((pure_or(alloc, a, b)?, rest))
}

#[cycle(pure)]
#[tactic(auto, unfolding(crate::specs::Reading::part_as))]
fn negation(alloc: Global, levels: u32, vars: u32, bytes: &[u8]) -> Result<(Pure, &[u8]), ReadFault>
    ensures { ReadsAs result (part_as pure.Not (pure_at levels vars) bytes.now) }
{
    let (a, rest) = part(alloc, levels, vars, bytes)?;
    Ok((pure_not(alloc, a)?, rest))
}

/// A pure formula behind a blank.
#[cycle(pure)]
#[tactic(auto, unfolding(crate::specs::Reading::part_at))]
fn part(alloc: Global, levels: u32, vars: u32, bytes: &[u8]) -> Result<(Pure, &[u8]), ReadFault>
    ensures { ReadsAs result (part_at (pure_at levels vars) bytes.now) }
{
    pure(alloc, levels, vars, skip(b' ', bytes)?)
}

/// Two pure formulas, each behind a blank.
#[cycle(pure)]
#[tactic(auto, unfolding(crate::specs::Reading::pair_at))]
fn two_pures(
    alloc: Global,
    levels: u32,
    vars: u32,
    bytes: &[u8],
) -> Result<(Pure, Pure, &[u8]), ReadFault>
    ensures { ReadsTwoAs result (pair_at (pure_at levels vars) bytes.now) }
{
    let (a, rest) = part(alloc, levels, vars, bytes)?;
    let (b, rest) = part(alloc, levels, vars, rest)?;
    Ok((a, b, rest))
}

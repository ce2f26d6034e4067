//! Terms. Each reader takes how many levels there may be, and how many variables there are.

ghost use Rattle.std.specs.Prelude.{◌≡◌};
ghost use Rattle.pm_dtext.specs.Texts.{ReadsAs, ReadsTwoAs};
ghost use Rattle.pm_dtext.specs.Reading.{part_at, pair_at, part_as, parts_at, items_at, term_under, term_at};
ghost use Rattle.pm_logic.specs.declared.formula.Term.TheViews as term;
ghost use Rattle.pm_dtext.specs.declared.signs.TermSign.TheVariants as signs;

use crate::fault::{Fault, ReadFault};
use crate::signs::{TermSign, term_sign};
use crate::words::{factor, skip};
use pm_logic::{List, Term, add, neg, scale, sub};
use std::alloc::Global;

/// The term at the front, and what follows it.
#[cycle(term)]
#[tactic(auto, using(crate::proofs::Levels::term_none, crate::proofs::Levels::term_more))]
pub fn term(alloc: Global, levels: u32, vars: u32, bytes: &[u8]) -> Result<(Term, &[u8]), ReadFault>
    ensures { ReadsAs result (term_at levels vars bytes.now) }
{
    let (sign, rest) = term_sign(vars, bytes)?;
    if levels == 0 {
        return Err(ReadFault::Fault(Fault::Deep(bytes.len())));
    }
    term_under(alloc, sign, levels - 1, vars, rest)
}

/// The term behind its sign. What a sign takes is read by a function of its own, so that a level takes little stack.
#[cycle(term)]
#[tactic(auto, unfolding(crate::specs::Reading::term_under))]
fn term_under(
    alloc: Global,
    sign: TermSign,
    levels: u32,
    vars: u32,
    bytes: &[u8],
) -> Result<(Term, &[u8]), ReadFault>
    ensures { ReadsAs result (term_under sign (term_at levels vars) bytes.now) }
{
    match sign {
        TermSign::Lit(z) => Ok((Term::Lit(z), bytes)),
        TermSign::Var(i) => Ok((Term::Var(i), bytes)),
        TermSign::Add => sum(alloc, levels, vars, bytes),
        TermSign::Sub => difference(alloc, levels, vars, bytes),
        TermSign::Neg => negative(alloc, levels, vars, bytes),
        TermSign::Scale => product(alloc, levels, vars, bytes),
    }
}

#[cycle(term)]
#[tactic(auto, unfolding(crate::specs::Reading::parts_at))]
fn sum(alloc: Global, levels: u32, vars: u32, bytes: &[u8]) -> Result<(Term, &[u8]), ReadFault>
    ensures { ReadsAs result (parts_at term.Add (term_at levels vars) bytes.now) }
{
    let (left, right, rest) = two_terms(alloc, levels, vars, bytes)?;
    Ok((add(alloc, left, right)?, rest))
}

#[cycle(term)]
#[tactic(auto, unfolding(crate::specs::Reading::parts_at))]
fn difference(
    alloc: Global,
    levels: u32,
    vars: u32,
    bytes: &[u8],
) -> Result<(Term, &[u8]), ReadFault>
    ensures { ReadsAs result (parts_at term.Sub (term_at levels vars) bytes.now) }
{
    let (left, right, rest) = two_terms(alloc, levels, vars, bytes)?;
    Ok((sub(alloc, left, right)?, rest))
}

#[cycle(term)]
#[tactic(auto, unfolding(crate::specs::Reading::part_as))]
fn negative(alloc: Global, levels: u32, vars: u32, bytes: &[u8]) -> Result<(Term, &[u8]), ReadFault>
    ensures { ReadsAs result (part_as term.Neg (term_at levels vars) bytes.now) }
{
    let (t, rest) = part(alloc, levels, vars, bytes)?;
    Ok((neg(alloc, t)?, rest))
}

#[cycle(term)]
#[tactic(auto, unfolding(crate::specs::Reading::term_under))]
fn product(alloc: Global, levels: u32, vars: u32, bytes: &[u8]) -> Result<(Term, &[u8]), ReadFault>
    ensures { ReadsAs result (term_under signs.Scale (term_at levels vars) bytes.now) }
{
    let (z, rest) = factor(bytes)?;
    let (t, rest) = part(alloc, levels, vars, rest)?;
    Ok((scale(alloc, z, t)?, rest))
}

/// A term behind a blank.
#[cycle(term)]
#[tactic(auto, unfolding(crate::specs::Reading::part_at))]
pub fn part(alloc: Global, levels: u32, vars: u32, bytes: &[u8]) -> Result<(Term, &[u8]), ReadFault>
    ensures { ReadsAs result (part_at (term_at levels vars) bytes.now) }
{
    term(alloc, levels, vars, skip(b' ', bytes)?)
}

/// Two terms, each behind a blank.
#[cycle(term)]
#[tactic(auto, unfolding(crate::specs::Reading::pair_at))]
pub fn two_terms(
    alloc: Global,
    levels: u32,
    vars: u32,
    bytes: &[u8],
) -> Result<(Term, Term, &[u8]), ReadFault>
    ensures { ReadsTwoAs result (pair_at (term_at levels vars) bytes.now) }
{
    let (left, rest) = part(alloc, levels, vars, bytes)?;
    let (right, rest) = part(alloc, levels, vars, rest)?;
    Ok((left, right, rest))
}

/// So many terms, each behind a blank.
#[tactic(auto, using(crate::proofs::Items::items_begun, crate::proofs::Items::items_turned, crate::proofs::Items::items_failed, crate::proofs::Items::items_ended))]
pub fn terms(
    alloc: Global,
    levels: u32,
    vars: u32,
    count: u32,
    bytes: &[u8],
) -> Result<(List<Term>, &[u8]), ReadFault>
    ensures { ReadsAs result (items_at (term_at levels vars) count bytes.now) }
{
    let mut terms = List::new(alloc);
    let mut rest = bytes;
    for _i in 0..count {
        let (t, behind) = part(alloc, levels, vars, rest)?;
        terms.push(t)?;
        rest = behind;
    }
    Ok((terms, rest))
}

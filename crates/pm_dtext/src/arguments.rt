//! What a rule takes besides its premises and its conclusion.

ghost use Rattle.std.specs.Prelude.{◌≡◌, ◌+◌, ◌≤◌, length};
ghost use Rattle.pm_logic.specs.declared.limits.TheConstants.{MAX_LINE_LEVELS, MAX_LINE_TERMS, MAX_LINE_VARIABLES, MAX_TABLE};
ghost use Rattle.pm_dtext.specs.Texts.{ReadsAs, ReadsTwoAs, told};
ghost use Rattle.pm_dtext.specs.Reading.{part_at, part_as, pair_at, parts_at, items_at, list_at, says_at, literal_of, term_at, formula_at, args_at};
ghost use Rattle.pm_rules.specs.declared.rules.Rule.TheVariants as rule;

use crate::arities::Arities;
use crate::fault::ReadFault;
use crate::signs::RuleSign;
use crate::words::{factor, skip, up_to};
use crate::{formulas, terms};
use pm_logic::{List, MAX_LINE_LEVELS, MAX_LINE_TERMS, Term};
use pm_rules::Rule;
use std::alloc::Global;

/// So many factors, each behind a blank.
#[tactic(auto, using(crate::proofs::Items::items_begun, crate::proofs::Items::items_turned, crate::proofs::Items::items_failed, crate::proofs::Items::items_ended))]
fn factors(alloc: Global, count: u32, bytes: &[u8]) -> Result<(List<i64>, &[u8]), ReadFault>
    ensures { ReadsAs result (items_at (says_at literal_of) count bytes.now) }
{
    let mut factors = List::new(alloc);
    let mut rest = bytes;
    for _i in 0..count {
        let (z, behind) = factor(rest)?;
        factors.push(z)?;
        rest = behind;
    }
    Ok((factors, rest))
}

/// A list of factors behind a blank and their number.
#[tactic(auto, unfolding(crate::specs::Reading::part_at, crate::specs::Reading::list_at))]
fn counted_factors(alloc: Global, bytes: &[u8]) -> Result<(List<i64>, &[u8]), ReadFault>
    ensures { ReadsAs result (part_at (list_at 66 (says_at literal_of)) bytes.now) }
{
    let (count, rest) = up_to(66, skip(b' ', bytes)?)?;
    factors(alloc, count, rest)
}

/// Two lists of factors.
#[tactic(auto, unfolding(crate::specs::Reading::pair_at))]
fn two_lists(alloc: Global, bytes: &[u8]) -> Result<(List<i64>, List<i64>, &[u8]), ReadFault>
    ensures { ReadsTwoAs result (pair_at (list_at 66 (says_at literal_of)) bytes.now) }
{
    let (first, rest) = counted_factors(alloc, bytes)?;
    let (second, rest) = counted_factors(alloc, rest)?;
    Ok((first, second, rest))
}

/// A list of terms behind a blank and their number.
#[tactic(auto, unfolding(crate::specs::Reading::part_at, crate::specs::Reading::list_at))]
fn counted_terms(alloc: Global, vars: u32, bytes: &[u8]) -> Result<(List<Term>, &[u8]), ReadFault>
    ensures { ReadsAs result (part_at (list_at MAX_LINE_TERMS (term_at MAX_LINE_LEVELS vars)) bytes.now) }
{
    let (count, rest) = up_to(MAX_LINE_TERMS, skip(b' ', bytes)?)?;
    terms::terms(alloc, MAX_LINE_LEVELS, vars, count, rest)
}

#[tactic(auto, unfolding(crate::specs::Reading::part_as))]
fn instance(alloc: Global, vars: u32, bytes: &[u8]) -> Result<(Rule, &[u8]), ReadFault>
    ensures { ReadsAs result (part_as rule.Inst (list_at MAX_LINE_TERMS (term_at MAX_LINE_LEVELS vars)) bytes.now) }
{
    let (sigma, rest) = counted_terms(alloc, vars, bytes)?;
    Ok((Rule::Inst { sigma }, rest))
}

#[tactic(auto, unfolding(crate::specs::Reading::part_as))]
fn all_elim(alloc: Global, vars: u32, bytes: &[u8]) -> Result<(Rule, &[u8]), ReadFault>
    ensures { ReadsAs result (part_as rule.AllE (term_at MAX_LINE_LEVELS vars) bytes.now) }
{
    let (t, rest) = terms::part(alloc, MAX_LINE_LEVELS, vars, bytes)?;
    Ok((Rule::AllE { t }, rest))
}

#[tactic(auto, unfolding(crate::specs::Reading::part_as))]
fn exists_intro(alloc: Global, vars: u32, bytes: &[u8]) -> Result<(Rule, &[u8]), ReadFault>
    ensures { ReadsAs result (part_as rule.ExI (term_at MAX_LINE_LEVELS vars) bytes.now) }
{
    let (t, rest) = terms::part(alloc, MAX_LINE_LEVELS, vars, bytes)?;
    Ok((Rule::ExI { t }, rest))
}

#[tactic(auto, unfolding(crate::specs::Reading::parts_at))]
fn linear(alloc: Global, bytes: &[u8]) -> Result<(Rule, &[u8]), ReadFault>
    ensures { ReadsAs result (parts_at rule.Linear (list_at 66 (says_at literal_of)) bytes.now) }
{
    let (first, second, rest) = two_lists(alloc, bytes)?;
    Ok((Rule::Linear { first, second }, rest))
}

#[tactic(auto, unfolding(crate::specs::Reading::part_as))]
fn rewrite<'a>(
    alloc: Global,
    arities: Arities,
    vars: u32,
    bytes: &'a [u8],
) -> Result<(Rule, &'a [u8]), ReadFault>
    requires table { length (told arities) ≤ MAX_TABLE }
    requires few { vars ≤ MAX_LINE_VARIABLES + 1 }
    ensures { ReadsAs result (part_as rule.Rewrite (formula_at (told arities.entry) MAX_LINE_LEVELS vars) bytes.now) }
{
    let (template, rest) = formulas::part(alloc, arities, MAX_LINE_LEVELS, vars, bytes)?;
    Ok((Rule::Rewrite { template }, rest))
}

/// The rule with its arguments, where its conclusion has so many variables.
#[tactic(auto, unfolding(crate::specs::Reading::args_at))]
pub fn with_arguments<'a>(
    alloc: Global,
    arities: Arities,
    vars: u32,
    sign: RuleSign,
    bytes: &'a [u8],
) -> Result<(Rule, &'a [u8]), ReadFault>
    requires table { length (told arities) ≤ MAX_TABLE }
    requires few { vars ≤ MAX_LINE_VARIABLES }
    ensures { ReadsAs result (args_at (told arities.entry) vars sign bytes.now) }
{
    match sign {
        RuleSign::Plain(rule) => Ok((rule, bytes)),
        RuleSign::Inst => instance(alloc, vars, bytes),
        RuleSign::AllE => all_elim(alloc, vars, bytes),
        RuleSign::ExI => exists_intro(alloc, vars, bytes),
        RuleSign::Linear => linear(alloc, bytes),
        RuleSign::Rewrite => rewrite(alloc, arities, vars + 1, bytes),
    }
}

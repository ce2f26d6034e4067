//! One line of a derivation text.

ghost use Rattle.std.specs.Prelude.{◌≡◌, ◌≤◌, length, IfOk};
ghost use Rattle.pm_logic.specs.declared.limits.TheConstants.{MAX_LINE_VARIABLES, MAX_TABLE};
ghost use Rattle.pm_dtext.specs.Texts.{ReadsAs, ReadsTwoAs, ReadsExactly, ReadsTwoExactly, told};
ghost use Rattle.pm_dtext.specs.Reading.{part_at, says_at, count_of, earlier_at, cite_at, entail_at, qed_at, line_at};
ghost use Rattle.pm_dtext.specs.Parts.{front_at, cites_at, derived_at, step_in_parts};

use crate::arguments::with_arguments;
use crate::arities::Arities;
use crate::fault::{Fault, ReadFault};
use crate::formulas::two_formulas;
use crate::line::Line;
use crate::names::rule_sign;
use crate::signs::RuleSign;
use crate::words::{expect_number, is_text, name, number, skip, up_to, word_of};
use pm_logic::{MAX_LINE_LEVELS, MAX_LINE_VARIABLES, Name};
use pm_rules::{Entail, Rule, premise_count};
use std::alloc::Global;

/// How many premises the rule takes, whatever its arguments are.
fn count_of(sign: &RuleSign) -> u8
    ensures { result ≡ count_of sign.now }
{
    match sign {
        RuleSign::Plain(rule) => premise_count(rule),
        RuleSign::Inst => 1,
        RuleSign::AllE | RuleSign::ExI | RuleSign::Linear | RuleSign::Rewrite => 0,
    }
}

/// The number of a proof line before this one.
#[tactic(auto, unfolding(crate::specs::Reading::earlier_at))]
fn earlier(next: u64, bytes: &[u8]) -> Result<(u64, &[u8]), Fault>
    ensures { ReadsExactly result (earlier_at next bytes.now) }
{
    let (cited, rest) = number(bytes)?;
    if 1 <= cited && cited < next {
        Ok((cited, rest))
    } else {
        Err(Fault::NoLine(cited))
    }
}

/// A citation, where one is wanted.
#[tactic(auto, unfolding(crate::specs::Reading::cite_at, crate::specs::Reading::part_as, crate::specs::Reading::part_at))]
fn cite(next: u64, wanted: bool, bytes: &[u8]) -> Result<(Option<u64>, &[u8]), Fault>
    ensures { ReadsExactly result (cite_at next wanted bytes.now) }
{
    if !wanted {
        return Ok((None, bytes));
    }
    let (cited, rest) = earlier(next, skip(b' ', bytes)?)?;
    Ok((Some(cited), rest))
}

/// Both sides of an entailment with so many variables.
#[tactic(auto, unfolding(crate::specs::Reading::entail_at, crate::specs::Reading::parts_at))]
fn entail<'a>(
    alloc: Global,
    arities: Arities,
    vars: u32,
    bytes: &'a [u8],
) -> Result<(Entail, &'a [u8]), ReadFault>
    requires table { length (told arities) ≤ MAX_TABLE }
    requires few { vars ≤ MAX_LINE_VARIABLES }
    ensures { ReadsAs result (entail_at (told arities.entry) vars bytes.now) }
{
    let (left, right, rest) = two_formulas(alloc, arities, MAX_LINE_LEVELS, vars, bytes)?;
    Ok((Entail { vars, left, right }, rest))
}

/// The number of a proof line, what its rule's name says, and how many variables there are.
#[tactic(auto, unfolding(crate::specs::Parts::front_at, crate::specs::Reading::part_at))]
fn front(next: u64, bytes: &[u8]) -> Result<(RuleSign, u32, &[u8]), Fault>
    ensures reads { ReadsTwoExactly result (front_at next bytes.now) }
    ensures few { IfOk result (λ x. x.1 ≤ MAX_LINE_VARIABLES) }
{
    let rest = skip(b' ', expect_number(next, bytes)?)?;
    let (sign, rest) = rule_sign(rest)?;
    let (vars, rest) = up_to(MAX_LINE_VARIABLES, skip(b' ', rest)?)?;
    Ok((sign, vars, rest))
}

/// The citations of a rule that takes so many premises.
#[tactic(auto, unfolding(crate::specs::Parts::cites_at))]
fn cites(next: u64, count: u8, bytes: &[u8]) -> Result<(Option<u64>, Option<u64>, &[u8]), Fault>
    ensures { ReadsTwoExactly result (cites_at next count bytes.now) }
{
    let (first, rest) = cite(next, 1 <= count, bytes)?;
    let (second, rest) = cite(next, 2 <= count, rest)?;
    Ok((first, second, rest))
}

/// The rule with its arguments, and what it derives.
#[tactic(auto, unfolding(crate::specs::Parts::derived_at))]
fn derived<'a>(
    alloc: Global,
    arities: Arities,
    vars: u32,
    sign: RuleSign,
    bytes: &'a [u8],
) -> Result<(Rule, Entail, &'a [u8]), ReadFault>
    requires table { length (told arities) ≤ MAX_TABLE }
    requires few { vars ≤ MAX_LINE_VARIABLES }
    ensures { ReadsTwoAs result (derived_at (told arities.entry) vars sign bytes.now) }
{
    let (rule, rest) = with_arguments(alloc, arities, vars, sign, bytes)?;
    let (entail, rest) = entail(alloc, arities, vars, rest)?;
    Ok((rule, entail, rest))
}

/// The proof line of this number.
#[tactic(auto, unfolding(crate::specs::Parts::step_in_parts, crate::specs::Reading::ends_at))]
fn step<'a>(
    alloc: Global,
    arities: Arities,
    next: u64,
    bytes: &'a [u8],
) -> Result<(Line, &'a [u8]), ReadFault>
    requires { length (told arities) ≤ MAX_TABLE }
    ensures { ReadsAs result (step_in_parts (told arities.entry) next bytes.now) }
{
    let (sign, vars, rest) = front(next, bytes)?;
    let (first, second, rest) = cites(next, count_of(&sign), rest)?;
    let (rule, entail, rest) = derived(alloc, arities, vars, sign, rest)?;
    let rest = skip(b'\n', rest)?;
    let line = Line::Step {
        rule,
        first,
        second,
        entail,
    };
    Ok((line, rest))
}

/// A statement's line behind its word.
#[tactic(auto, unfolding(crate::specs::Reading::qed_at, crate::specs::Reading::part_at, crate::specs::Reading::ends_at))]
fn qed(alloc: Global, next: u64, bytes: &[u8]) -> Result<(Line, &[u8]), ReadFault>
    ensures { ReadsAs result (qed_at next bytes.now) }
{
    let (name, rest) = name(skip(b' ', bytes)?)?;
    let (cited, rest) = earlier(next, skip(b' ', rest)?)?;
    let rest = skip(b'\n', rest)?;
    let name = Name::from_bytes(alloc, name)?;
    Ok((Line::Qed { name, cited }, rest))
}

/// The line at the front, and what follows it, where `next` is the number of the next proof line.
#[tactic(auto, unfolding(crate::specs::Reading::line_at), using(crate::proofs::StepParts::step_whole))]
pub fn line<'a>(
    alloc: Global,
    arities: Arities,
    next: u64,
    bytes: &'a [u8],
) -> Result<(Line, &'a [u8]), ReadFault>
    requires { length (told arities) ≤ MAX_TABLE }
    ensures { ReadsAs result (line_at (told arities.entry) next bytes.now) }
{
    let (word, rest) = word_of(bytes);
    if is_text(word, "qed") {
        qed(alloc, next, rest)
    } else {
        step(alloc, arities, next, bytes)
    }
}

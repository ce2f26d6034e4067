//! Directives without trees, behind their first word. `stop` is the offset in bytes at which the tokens end.

ghost use Rattle.std.specs.Prelude.{◌≡◌, map, IfOk};
ghost use Rattle.pm_tokens.specs.Tokens.{places};
ghost use Rattle.pm_terms.specs.Steps.{ReadsAs};
ghost use Rattle.pm_patterns.specs.PatternReading.{quoted_cert};
ghost use Rattle.pm_patterns.specs.declared.pattern.Pat.TheVariants as pat;
ghost use Rattle.pm_script.specs.SentenceReading as spec;

use crate::directive::Directive;
use crate::parts::{Read, any_target, as_pattern, into_name};
use crate::steps::expect_word;
use pm_logic::{List, MAX_LEVELS, Memory, Name, copy_name};
use pm_patterns::{
    Cert, Pat, Sel, closed, further_intros, grouped_names, name_in, quoted_cert, quoted_intros,
    quoted_name, quoted_sels,
};
use pm_terms::{behind, expect, sees};
use pm_tokens::{Placed, Symbol};
use std::alloc::Global;

/// A directive, and the tokens behind it.
pub type ReadPlain<'a> = Read<'a, Directive>;

/// Introduction items between quotes, behind others, and no further ones where the tokens are at an end.
#[tactic(auto, unfolding(crate::specs::SentenceReading::any_intros))]
fn any_intros<'a>(
    alloc: Global,
    stop: usize,
    found: List<Pat>,
    tokens: &'a [Placed<'a>],
) -> Read<'a, List<Pat>>
    ensures { ReadsAs result (spec.any_intros stop found (places tokens.now)) }
{
    match tokens {
        [] => Ok((found, tokens)),
        [_, ..] => further_intros(alloc, stop, found, tokens),
    }
}

/// Selections between quotes, and none where the tokens are at an end.
#[tactic(auto, unfolding(crate::specs::SentenceReading::any_sels))]
fn any_sels<'a>(alloc: Global, stop: usize, tokens: &'a [Placed<'a>]) -> Read<'a, List<Sel>>
    ensures { ReadsAs result (spec.any_sels stop (places tokens.now)) }
{
    match tokens {
        [] => Ok((List::new(alloc), tokens)),
        [_, ..] => quoted_sels(alloc, stop, tokens),
    }
}

/// Names of variables as patterns.
fn variables(alloc: Global, names: &[Name]) -> Result<List<Pat>, Memory>
    ensures { IfOk result (λ pats. pats ≡ map pat.PureName names.now) }
{
    let mut pats = List::new(alloc);
    for name in names {
        let name = copy_name(alloc, name)?;
        pats.push(Pat::PureName(name))?;
    }
    Ok(pats)
}

/// `( x … )`, and introduction items if there are any.
#[tactic(auto, unfolding(crate::specs::SentenceReading::named_intros))]
fn named_intros<'a>(alloc: Global, stop: usize, tokens: &'a [Placed<'a>]) -> ReadPlain<'a>
    ensures { ReadsAs result (spec.named_intros stop (places tokens.now)) }
{
    let (names, rest) = grouped_names(alloc, stop, tokens)?;
    let found = variables(alloc, names.as_slice())?;
    let (pats, rest) = any_intros(alloc, stop, found, rest)?;
    Ok((Directive::Intros(pats), rest))
}

/// Behind `iIntros`.
#[tactic(auto, unfolding(crate::specs::SentenceReading::intros))]
pub fn intros<'a>(alloc: Global, stop: usize, tokens: &'a [Placed<'a>]) -> ReadPlain<'a>
    ensures { ReadsAs result (spec.intros stop (places tokens.now)) }
{
    if sees(Symbol::Open, tokens) {
        return named_intros(alloc, stop, tokens);
    }
    let (pats, rest) = quoted_intros(alloc, stop, tokens)?;
    Ok((Directive::Intros(pats), rest))
}

/// Behind `iRename`.
#[tactic(auto, unfolding(crate::specs::SentenceReading::rename))]
pub fn rename<'a>(alloc: Global, stop: usize, tokens: &'a [Placed<'a>]) -> ReadPlain<'a>
    ensures { ReadsAs result (spec.rename stop (places tokens.now)) }
{
    let (from, rest) = quoted_name(alloc, stop, tokens)?;
    let (to, rest) = into_name(alloc, stop, rest)?;
    Ok((Directive::Rename(from, to), rest))
}

/// `( x … )`, and selections if there are any.
#[tactic(auto, unfolding(crate::specs::SentenceReading::named_revert))]
fn named_revert<'a>(alloc: Global, stop: usize, tokens: &'a [Placed<'a>]) -> ReadPlain<'a>
    ensures { ReadsAs result (spec.named_revert stop (places tokens.now)) }
{
    let (names, rest) = grouped_names(alloc, stop, tokens)?;
    let (sels, rest) = any_sels(alloc, stop, rest)?;
    Ok((Directive::Revert(names, sels), rest))
}

/// Behind `iRevert`.
#[tactic(auto, unfolding(crate::specs::SentenceReading::revert))]
pub fn revert<'a>(alloc: Global, stop: usize, tokens: &'a [Placed<'a>]) -> ReadPlain<'a>
    ensures { ReadsAs result (spec.revert stop (places tokens.now)) }
{
    if sees(Symbol::Open, tokens) {
        return named_revert(alloc, stop, tokens);
    }
    let (sels, rest) = quoted_sels(alloc, stop, tokens)?;
    Ok((Directive::Revert(List::new(alloc), sels), rest))
}

#[tactic(auto, unfolding(crate::specs::SentenceReading::two_names))]
fn two_names<'a>(alloc: Global, stop: usize, tokens: &'a [Placed<'a>]) -> Read<'a, (Name, Name)>
    ensures { ReadsAs result (spec.two_names stop (places tokens.now)) }
{
    let (first, rest) = name_in(alloc, stop, tokens)?;
    let (second, rest) = name_in(alloc, stop, rest)?;
    Ok(((first, second), rest))
}

/// Two names between quotes.
#[tactic(auto, unfolding(crate::specs::SentenceReading::quoted_two, pm_patterns::specs::PatternReading::quoted, pm_terms::specs::Steps::closed_by))]
fn quoted_two<'a>(alloc: Global, stop: usize, tokens: &'a [Placed<'a>]) -> Read<'a, (Name, Name)>
    ensures { ReadsAs result (spec.quoted_two stop (places tokens.now)) }
{
    let rest = expect(Symbol::Quote, stop, tokens)?;
    let (both, rest) = two_names(alloc, stop, rest)?;
    closed(Symbol::Quote, stop, both, rest)
}

/// Behind `iCombine`.
#[tactic(auto, unfolding(crate::specs::SentenceReading::combine))]
pub fn combine<'a>(alloc: Global, stop: usize, tokens: &'a [Placed<'a>]) -> ReadPlain<'a>
    ensures { ReadsAs result (spec.combine stop (places tokens.now)) }
{
    let ((first, second), rest) = quoted_two(alloc, stop, tokens)?;
    let (pat, rest) = as_pattern(alloc, stop, MAX_LEVELS, rest)?;
    Ok((Directive::Combine(first, second, pat), rest))
}

/// Behind `iRewrite` and the minus, if there is one.
#[tactic(auto, unfolding(crate::specs::SentenceReading::rewrite_by))]
fn rewrite_by<'a>(alloc: Global, stop: usize, back: bool, tokens: &'a [Placed<'a>]) -> ReadPlain<'a>
    ensures { ReadsAs result (spec.rewrite_by stop back (places tokens.now)) }
{
    let (fact, rest) = quoted_name(alloc, stop, tokens)?;
    let (target, rest) = any_target(alloc, stop, rest)?;
    Ok((Directive::Rewrite { back, fact, target }, rest))
}

/// Behind `iRewrite`.
#[tactic(auto, unfolding(crate::specs::SentenceReading::rewrite))]
pub fn rewrite<'a>(alloc: Global, stop: usize, tokens: &'a [Placed<'a>]) -> ReadPlain<'a>
    ensures { ReadsAs result (spec.rewrite stop (places tokens.now)) }
{
    if sees(Symbol::Minus, tokens) {
        rewrite_by(alloc, stop, true, behind(tokens))
    } else {
        rewrite_by(alloc, stop, false, tokens)
    }
}

/// A certificate between quotes, and none where the tokens are at an end.
#[tactic(auto, unfolding(crate::specs::SentenceReading::if_any))]
fn any_cert<'a>(alloc: Global, stop: usize, tokens: &'a [Placed<'a>]) -> Read<'a, Option<Cert>>
    ensures { ReadsAs result (spec.if_any stop (quoted_cert stop) (places tokens.now)) }
{
    match tokens {
        [] => Ok((None, tokens)),
        [_, ..] => {
            let (cert, rest) = quoted_cert(alloc, stop, tokens)?;
            Ok((Some(cert), rest))
        }
    }
}

fn both_certs(alloc: Global, first: Cert, second: Option<Cert>) -> Result<List<Cert>, Memory>
    ensures { IfOk result (λ certs. certs ≡ spec.both_certs first second) }
{
    let mut certs = List::new(alloc);
    certs.push(first)?;
    match second {
        Some(cert) => {
            certs.push(cert)?;
            Ok(certs)
        }
        None => Ok(certs),
    }
}

/// One certificate or two.
#[tactic(auto, unfolding(crate::specs::SentenceReading::certs_in))]
fn certs_in<'a>(alloc: Global, stop: usize, tokens: &'a [Placed<'a>]) -> Read<'a, List<Cert>>
    ensures { ReadsAs result (spec.certs_in stop (places tokens.now)) }
{
    let (first, rest) = quoted_cert(alloc, stop, tokens)?;
    let (second, rest) = any_cert(alloc, stop, rest)?;
    Ok((both_certs(alloc, first, second)?, rest))
}

/// `with` and certificates.
#[tactic(auto, unfolding(crate::specs::SentenceReading::with_certs))]
fn with_certs<'a>(alloc: Global, stop: usize, tokens: &'a [Placed<'a>]) -> ReadPlain<'a>
    ensures { ReadsAs result (spec.with_certs stop (places tokens.now)) }
{
    let rest = expect_word("with", stop, tokens)?;
    let (certs, rest) = certs_in(alloc, stop, rest)?;
    Ok((Directive::LinearWith(certs), rest))
}

/// Behind `linear`.
#[tactic(auto, unfolding(crate::specs::SentenceReading::linear))]
pub fn linear<'a>(alloc: Global, stop: usize, tokens: &'a [Placed<'a>]) -> ReadPlain<'a>
    ensures { ReadsAs result (spec.linear stop (places tokens.now)) }
{
    match tokens {
        [] => Ok((Directive::Linear, tokens)),
        [_, ..] => with_certs(alloc, stop, tokens),
    }
}

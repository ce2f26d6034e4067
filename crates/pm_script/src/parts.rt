//! Parts of directives without trees. `stop` is the offset in bytes at which the tokens end. Each reader answers what it
//! read and the tokens behind it; the faults are those of the tokens from left to right.

ghost use Rattle.std.specs.Prelude.{◌≡◌};
ghost use Rattle.pm_tokens.specs.Tokens.{places};
ghost use Rattle.pm_terms.specs.Steps.{ReadsAs};
ghost use Rattle.pm_patterns.specs.PatternReading.{quoted_name, quoted_names, quoted_sels};
ghost use Rattle.pm_script.specs.SentenceReading as spec;

use crate::steps::{expect_word, sees_word};
use pm_logic::{List, MAX_LEVELS, Name};
use pm_patterns::{
    Head, Pat, Sel, Spat, bound_pattern, closed, name_in, quoted_name, quoted_names,
    quoted_pattern, quoted_premise, quoted_sels, quoted_spats,
};
use pm_terms::{TextFault, behind, expect, sees};
use pm_tokens::{Placed, Symbol};
use std::alloc::Global;

/// What is read, and the tokens behind it.
pub type Read<'a, T> = Result<(T, &'a [Placed<'a>]), TextFault>;

/// A hypothesis, or a lemma where one may stand.
#[tactic(auto, unfolding(crate::specs::SentenceReading::head_in))]
pub fn head_in<'a>(
    alloc: Global,
    stop: usize,
    lemmas: bool,
    tokens: &'a [Placed<'a>],
) -> Read<'a, Head>
    ensures { ReadsAs result (spec.head_in stop lemmas (places tokens.now)) }
{
    if !lemmas || sees(Symbol::Quote, tokens) {
        let (name, rest) = quoted_name(alloc, stop, tokens)?;
        Ok((Head::Hyp(name), rest))
    } else {
        let (name, rest) = name_in(alloc, stop, tokens)?;
        Ok((Head::Lemma(name), rest))
    }
}

/// `with "spat …"`, if there is one.
#[tactic(auto, unfolding(crate::specs::SentenceReading::spats_in))]
pub fn spats_in<'a>(alloc: Global, stop: usize, tokens: &'a [Placed<'a>]) -> Read<'a, List<Spat>>
    ensures { ReadsAs result (spec.spats_in stop (places tokens.now)) }
{
    if sees_word("with", tokens) {
        quoted_spats(alloc, stop, behind(tokens))
    } else {
        Ok((List::new(alloc), tokens))
    }
}

/// `as "pat"`, where `room` patterns may stand one in another.
#[tactic(auto, unfolding(crate::specs::SentenceReading::as_pattern))]
pub fn as_pattern<'a>(
    alloc: Global,
    stop: usize,
    room: u32,
    tokens: &'a [Placed<'a>],
) -> Read<'a, Pat>
    ensures { ReadsAs result (spec.as_pattern stop room (places tokens.now)) }
{
    let rest = expect_word("as", stop, tokens)?;
    quoted_pattern(alloc, stop, room, rest)
}

/// `as "pat"`, or `as ( x … ) "pat"`.
#[tactic(auto, unfolding(crate::specs::SentenceReading::as_bound))]
pub fn as_bound<'a>(alloc: Global, stop: usize, tokens: &'a [Placed<'a>]) -> Read<'a, Pat>
    ensures { ReadsAs result (spec.as_bound stop (places tokens.now)) }
{
    let rest = expect_word("as", stop, tokens)?;
    bound_pattern(alloc, stop, rest)
}

/// `as "H"`.
#[tactic(auto, unfolding(crate::specs::SentenceReading::as_name))]
pub fn as_name<'a>(alloc: Global, stop: usize, tokens: &'a [Placed<'a>]) -> Read<'a, Name>
    ensures { ReadsAs result (spec.as_name stop (places tokens.now)) }
{
    let rest = expect_word("as", stop, tokens)?;
    quoted_name(alloc, stop, rest)
}

/// `in "H"`.
#[tactic(auto, unfolding(crate::specs::SentenceReading::in_name))]
pub fn in_name<'a>(alloc: Global, stop: usize, tokens: &'a [Placed<'a>]) -> Read<'a, Name>
    ensures { ReadsAs result (spec.in_name stop (places tokens.now)) }
{
    let rest = expect_word("in", stop, tokens)?;
    quoted_name(alloc, stop, rest)
}

/// `into "H"`.
#[tactic(auto, unfolding(crate::specs::SentenceReading::into_name))]
pub fn into_name<'a>(alloc: Global, stop: usize, tokens: &'a [Placed<'a>]) -> Read<'a, Name>
    ensures { ReadsAs result (spec.into_name stop (places tokens.now)) }
{
    let rest = expect_word("into", stop, tokens)?;
    quoted_name(alloc, stop, rest)
}

/// The tokens behind `%I`, if it is there.
fn without_marker<'a>(tokens: &'a [Placed<'a>]) -> &'a [Placed<'a>]
    ensures { places result.now ≡ spec.without_marker (places tokens.now) }
{
    if sees(Symbol::Intuitionistic, tokens) {
        behind(tokens)
    } else {
        tokens
    }
}

/// `%I`, if it is there, `with "[ … ]" as "pat"`.
#[tactic(auto, unfolding(crate::specs::SentenceReading::asserted))]
pub fn asserted<'a>(alloc: Global, stop: usize, tokens: &'a [Placed<'a>]) -> Read<'a, (Spat, Pat)>
    ensures { ReadsAs result (spec.asserted stop (places tokens.now)) }
{
    let rest = expect_word("with", stop, without_marker(tokens))?;
    let (how, rest) = quoted_premise(alloc, stop, rest)?;
    let (pat, rest) = as_pattern(alloc, stop, MAX_LEVELS, rest)?;
    Ok(((how, pat), rest))
}

/// `( x )`.
#[tactic(auto, unfolding(crate::specs::SentenceReading::grouped_name, pm_terms::specs::Steps::closed_by))]
fn grouped_name<'a>(alloc: Global, stop: usize, tokens: &'a [Placed<'a>]) -> Read<'a, Name>
    ensures { ReadsAs result (spec.grouped_name stop (places tokens.now)) }
{
    let rest = expect(Symbol::Open, stop, tokens)?;
    let (name, rest) = name_in(alloc, stop, rest)?;
    closed(Symbol::Close, stop, name, rest)
}

/// `as ( x ) "pat"`.
#[tactic(auto, unfolding(crate::specs::SentenceReading::allocated))]
pub fn allocated<'a>(alloc: Global, stop: usize, tokens: &'a [Placed<'a>]) -> Read<'a, (Name, Pat)>
    ensures { ReadsAs result (spec.allocated stop (places tokens.now)) }
{
    let rest = expect_word("as", stop, tokens)?;
    let (name, rest) = grouped_name(alloc, stop, rest)?;
    let (pat, rest) = quoted_pattern(alloc, stop, MAX_LEVELS, rest)?;
    Ok(((name, pat), rest))
}

/// A name between quotes, and none where the tokens are at an end.
#[tactic(auto, unfolding(crate::specs::SentenceReading::if_any))]
pub fn any_name<'a>(alloc: Global, stop: usize, tokens: &'a [Placed<'a>]) -> Read<'a, Option<Name>>
    ensures { ReadsAs result (spec.if_any stop (quoted_name stop) (places tokens.now)) }
{
    match tokens {
        [] => Ok((None, tokens)),
        [_, ..] => {
            let (name, rest) = quoted_name(alloc, stop, tokens)?;
            Ok((Some(name), rest))
        }
    }
}

/// `in "H"`, and nothing where the tokens are at an end.
#[tactic(auto, unfolding(crate::specs::SentenceReading::if_any))]
pub fn any_target<'a>(
    alloc: Global,
    stop: usize,
    tokens: &'a [Placed<'a>],
) -> Read<'a, Option<Name>>
    ensures { ReadsAs result (spec.if_any stop (spec.in_name stop) (places tokens.now)) }
{
    match tokens {
        [] => Ok((None, tokens)),
        [_, ..] => {
            let (name, rest) = in_name(alloc, stop, tokens)?;
            Ok((Some(name), rest))
        }
    }
}

/// Names between quotes, and none where the tokens are at an end.
#[tactic(auto, unfolding(crate::specs::SentenceReading::if_any))]
pub fn any_names<'a>(
    alloc: Global,
    stop: usize,
    tokens: &'a [Placed<'a>],
) -> Read<'a, Option<List<Name>>>
    ensures { ReadsAs result (spec.if_any stop (quoted_names stop) (places tokens.now)) }
{
    match tokens {
        [] => Ok((None, tokens)),
        [_, ..] => {
            let (names, rest) = quoted_names(alloc, stop, tokens)?;
            Ok((Some(names), rest))
        }
    }
}

/// Selections between quotes, and none where the tokens are at an end.
#[tactic(auto, unfolding(crate::specs::SentenceReading::if_any))]
pub fn any_sels<'a>(
    alloc: Global,
    stop: usize,
    tokens: &'a [Placed<'a>],
) -> Read<'a, Option<List<Sel>>>
    ensures { ReadsAs result (spec.if_any stop (quoted_sels stop) (places tokens.now)) }
{
    match tokens {
        [] => Ok((None, tokens)),
        [_, ..] => {
            let (sels, rest) = quoted_sels(alloc, stop, tokens)?;
            Ok((Some(sels), rest))
        }
    }
}

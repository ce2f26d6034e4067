//! Predicates, behind their first word.

ghost use Rattle.std.specs.Prelude.{◌≡◌, ◌+◌, ◌<◌, ◌≤◌, ◌^◌, length, IfOk};
ghost use Rattle.pm_logic.specs.declared.limits.TheConstants.{MAX_SENTENCE};
ghost use Rattle.pm_tokens.specs.declared.symbol.Symbol.TheVariants.{Comma, Open};
ghost use Rattle.pm_tokens.specs.Tokens.{places};
ghost use Rattle.pm_terms.specs.Steps.{ReadsAs, LeavesExactly, expect, sees};
ghost use Rattle.pm_script.specs.SentenceReading as spec;

use crate::parts::Read;
use crate::sentence::Sentence;
use crate::trees::{ReadIn, formula_tree};
use pm_logic::{Formula, List, Name};
use pm_name_sets::{NameIndex, NameList};
use pm_patterns::{ReadList, name_in};
use pm_terms::{Context, Own, TextFault, behind, expect, sees, unexpected};
use pm_tokens::{Placed, Symbol};
use std::alloc::Global;

/// A sentence with the offset of its tree, where it is too deep, and the tokens behind it.
pub type ReadSentence<'a> = ReadIn<'a, Sentence>;

/// A name, or the fault at one that stands before.
#[tactic(auto, unfolding(crate::specs::SentenceReading::param_in))]
fn param_in<'a>(
    alloc: Global,
    stop: usize,
    seen: &NameList,
    tokens: &'a [Placed<'a>],
) -> Read<'a, Name>
    ensures { ReadsAs result (spec.param_in stop seen.now (places tokens.now)) }
{
    let (name, rest) = name_in(alloc, stop, tokens)?;
    if seen.contains(name.bytes()) {
        Err(unexpected(stop, tokens))
    } else {
        Ok((name, rest))
    }
}

/// A further parameter behind a comma.
#[tactic(auto, unfolding(crate::specs::SentenceReading::next_param))]
fn next_param<'a>(
    alloc: Global,
    stop: usize,
    found: NameList,
    tokens: &'a [Placed<'a>],
) -> Read<'a, NameList>
    ensures value { ReadsAs result (spec.next_param stop found (places tokens.now)) }
    ensures few { IfOk result (λ x. length x.0 ≤ length found + 1) }
{
    let (name, rest) = param_in(alloc, stop, &found, behind(tokens))?;
    Ok((found.with(alloc, name)?, rest))
}

/// At most `most` further ones. By halves, so that the stack stays small.
#[tactic(auto, using(crate::proofs::Carried::none_left, crate::proofs::Carried::stopped, crate::proofs::Carried::single))]
fn more_params<'a>(
    alloc: Global,
    stop: usize,
    most: usize,
    found: NameList,
    tokens: &'a [Placed<'a>],
) -> Read<'a, NameList>
    ensures value { ReadsAs result (spec.carried (sees Comma) (spec.next_param stop) most found (places tokens.now)) }
    ensures few { IfOk result (λ x. length x.0 ≤ length found + most) }
{
    if most == 0 {
        return Ok((found, tokens));
    }
    if !sees(Symbol::Comma, tokens) {
        return Ok((found, tokens));
    }
    if most == 1 {
        return next_param(alloc, stop, found, tokens);
    }
    let half = most / 2;
    let (found, rest) = more_params(alloc, stop, half, found, tokens)?;
    more_params(alloc, stop, most - half, found, rest)
}

/// One parameter or more.
#[tactic(auto, unfolding(crate::specs::SentenceReading::some_params), using(crate::proofs::Carried::length_places))]
fn some_params<'a>(alloc: Global, stop: usize, tokens: &'a [Placed<'a>]) -> ReadList<'a, Name>
    ensures value { ReadsAs result (spec.some_params stop (places tokens.now)) }
    ensures few { IfOk result (λ x. length x.0 ≤ length tokens.now) }
{
    let (first, rest) = name_in(alloc, stop, tokens)?;
    let found = NameList::new(alloc).with(alloc, first)?;
    let (found, rest) = more_params(alloc, stop, rest.len(), found, rest)?;
    Ok((found.into_names(), rest))
}

#[tactic(auto, unfolding(crate::specs::SentenceReading::params))]
fn params<'a>(alloc: Global, stop: usize, tokens: &'a [Placed<'a>]) -> ReadList<'a, Name>
    ensures value { ReadsAs result (spec.params stop (places tokens.now)) }
    ensures few { IfOk result (λ x. length x.0 ≤ length tokens.now) }
{
    if sees(Symbol::Close, tokens) {
        Ok((List::new(alloc), tokens))
    } else {
        some_params(alloc, stop, tokens)
    }
}

/// The tokens behind a parenthesis that opens.
#[tactic(auto, unfolding(pm_terms::specs::Steps::expect))]
fn opened<'a>(stop: usize, tokens: &'a [Placed<'a>]) -> Result<&'a [Placed<'a>], TextFault>
    ensures value { LeavesExactly result (expect Open stop (places tokens.now)) }
    ensures within { IfOk result (λ r. length r.now ≤ length tokens.now) }
{
    if sees(Symbol::Open, tokens) {
        Ok(behind(tokens))
    } else {
        Err(unexpected(stop, tokens))
    }
}

/// `( x , … )`.
#[tactic(auto, unfolding(crate::specs::SentenceReading::grouped_params, pm_terms::specs::Steps::closed_by))]
fn grouped_params<'a>(alloc: Global, stop: usize, tokens: &'a [Placed<'a>]) -> ReadList<'a, Name>
    ensures value { ReadsAs result (spec.grouped_params stop (places tokens.now)) }
    ensures few { IfOk result (λ x. length x.0 ≤ length tokens.now) }
{
    let rest = opened(stop, tokens)?;
    let (names, rest) = params(alloc, stop, rest)?;
    let rest = expect(Symbol::Close, stop, rest)?;
    Ok((names, rest))
}

/// The body of a predicate of this name and these parameters, which may call the predicate itself.
#[tactic(auto, unfolding(crate::specs::SentenceReading::body_in))]
fn body_in<'a>(
    context: &Context<'_>,
    name: &Name,
    params: &List<Name>,
    tokens: &'a [Placed<'a>],
) -> ReadIn<'a, Formula>
    requires { length params.now < 2 ^ 31 }
    ensures { ReadsAs result (spec.body_in context.now.stop context.now.preds.now context.now.vars name.now params.now (places tokens.now)) }
{
    let inside = Context {
        alloc: context.alloc,
        stop: context.stop,
        vars: NameIndex::new(context.alloc, params.as_slice())?,
        preds: context.preds,
        own: Some(Own {
            name: name.bytes(),
            arity: params.len() as u32,
        }),
    };
    formula_tree(&inside, tokens)
}

/// `:= F` behind the name and the parameters.
#[tactic(auto, unfolding(crate::specs::SentenceReading::defined))]
fn defined<'a>(
    context: &Context<'_>,
    name: Name,
    params: List<Name>,
    tokens: &'a [Placed<'a>],
) -> ReadSentence<'a>
    requires { length params < 2 ^ 31 }
    ensures { ReadsAs result (spec.defined context.now.stop context.now.preds.now context.now.vars name params (places tokens.now)) }
{
    let rest = expect(Symbol::Defines, context.stop, tokens)?;
    let ((body, deep), rest) = body_in(context, &name, &params, rest)?;
    Ok(((Sentence::Predicate { name, params, body }, deep), rest))
}

/// `p ( x , … ) := F`.
#[tactic(auto, unfolding(crate::specs::SentenceReading::predicate))]
pub fn predicate<'a>(context: &Context<'_>, tokens: &'a [Placed<'a>]) -> ReadSentence<'a>
    requires { length tokens.now ≤ MAX_SENTENCE }
    ensures { ReadsAs result (spec.predicate context.now.stop context.now.preds.now context.now.vars (places tokens.now)) }
{
    let (name, rest) = name_in(context.alloc, context.stop, tokens)?;
    let (params, rest) = grouped_params(context.alloc, context.stop, rest)?;
    defined(context, name, params, rest)
}

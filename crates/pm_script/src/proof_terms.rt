//! Lists of terms, and proof terms.

ghost use Rattle.std.specs.Prelude.{◌≡◌, IfOk};
ghost use Rattle.pm_tokens.specs.declared.symbol.Symbol.TheVariants.{Comma};
ghost use Rattle.pm_tokens.specs.Tokens.{places};
ghost use Rattle.pm_terms.specs.Steps.{ReadsAs, sees};
ghost use Rattle.pm_text.specs.Parts.{table};
ghost use Rattle.pm_script.specs.SentenceReading as spec;

use crate::parts::{head_in, spats_in};
use crate::steps::sees_keyword;
use crate::trees::{ReadIn, operand_tree, term_tree};
use pm_logic::{List, Memory, Term};
use pm_patterns::{Head, ProofTerm, closed};
use pm_terms::{Context, behind, sees};
use pm_tokens::{Placed, Symbol};
use std::alloc::Global;

/// Terms, and the offset of the first that is too deep.
type Terms = (List<Term>, Option<u64>);

fn first_deep(first: Option<u64>, later: Option<u64>) -> Option<u64>
    ensures { result ≡ spec.first_deep first later }
{
    match first {
        Some(at) => Some(at),
        None => later,
    }
}

fn first_of(alloc: Global, tree: (Term, Option<u64>)) -> Result<Terms, Memory>
    ensures { IfOk result (λ found. found ≡ spec.first_of tree) }
{
    let mut terms = List::new(alloc);
    terms.push(tree.0)?;
    Ok((terms, tree.1))
}

fn with_tree(found: Terms, tree: (Term, Option<u64>)) -> Result<Terms, Memory>
    ensures { IfOk result (λ more. more ≡ spec.with_tree found tree) }
{
    let (mut terms, deep) = found;
    terms.push(tree.0)?;
    Ok((terms, first_deep(deep, tree.1)))
}

// ---- terms with commas between

/// A further term behind a comma.
#[tactic(auto, unfolding(crate::specs::SentenceReading::next_term))]
fn next_term<'a>(
    context: &Context<'_>,
    found: Terms,
    tokens: &'a [Placed<'a>],
) -> ReadIn<'a, List<Term>>
    ensures { ReadsAs result (spec.next_term context.now.stop (table context.now) context.now.vars found (places tokens.now)) }
{
    let (tree, rest) = term_tree(context, behind(tokens))?;
    Ok((with_tree(found, tree)?, rest))
}

/// At most `most` further ones. By halves, so that the stack stays small.
#[tactic(auto, using(crate::proofs::Carried::none_left, crate::proofs::Carried::stopped, crate::proofs::Carried::single))]
fn more_terms<'a>(
    context: &Context<'_>,
    most: usize,
    found: Terms,
    tokens: &'a [Placed<'a>],
) -> ReadIn<'a, List<Term>>
    ensures { ReadsAs result (spec.carried (sees Comma) (spec.next_term context.now.stop (table context.now) context.now.vars) most found (places tokens.now)) }
{
    if most == 0 {
        return Ok((found, tokens));
    }
    if !sees(Symbol::Comma, tokens) {
        return Ok((found, tokens));
    }
    if most == 1 {
        return next_term(context, found, tokens);
    }
    let half = most / 2;
    let (found, rest) = more_terms(context, half, found, tokens)?;
    more_terms(context, most - half, found, rest)
}

/// One term or more, with commas between.
#[tactic(auto, unfolding(crate::specs::SentenceReading::some_terms), using(crate::proofs::Carried::length_places))]
pub fn some_terms<'a>(context: &Context<'_>, tokens: &'a [Placed<'a>]) -> ReadIn<'a, List<Term>>
    ensures { ReadsAs result (spec.some_terms context.now.stop (table context.now) context.now.vars (places tokens.now)) }
{
    let (tree, rest) = term_tree(context, tokens)?;
    let found = first_of(context.alloc, tree)?;
    more_terms(context, rest.len(), found, rest)
}

// ---- operands one after another

/// Whether further operands come, and not the parenthesis or a `with` that a quote follows.
#[tactic(auto, unfolding(crate::specs::SentenceReading::goes_on))]
fn goes_on(context: &Context<'_>, tokens: &[Placed<'_>]) -> bool
    ensures { result ≡ spec.goes_on context.now.stop (table context.now) context.now.vars (places tokens.now) }
{
    !sees(Symbol::Close, tokens) && !sees_keyword("with", tokens)
}

/// A further operand.
#[tactic(auto, unfolding(crate::specs::SentenceReading::next_operand))]
fn next_operand<'a>(
    context: &Context<'_>,
    found: Terms,
    tokens: &'a [Placed<'a>],
) -> ReadIn<'a, List<Term>>
    ensures { ReadsAs result (spec.next_operand context.now.stop (table context.now) context.now.vars found (places tokens.now)) }
{
    let (tree, rest) = operand_tree(context, tokens)?;
    Ok((with_tree(found, tree)?, rest))
}

/// At most `most` further ones. By halves, so that the stack stays small.
#[tactic(auto, using(crate::proofs::Carried::none_left, crate::proofs::Carried::stopped, crate::proofs::Carried::single))]
fn more_operands<'a>(
    context: &Context<'_>,
    most: usize,
    found: Terms,
    tokens: &'a [Placed<'a>],
) -> ReadIn<'a, List<Term>>
    ensures { ReadsAs result (spec.carried (spec.goes_on context.now.stop (table context.now) context.now.vars) (spec.next_operand context.now.stop (table context.now) context.now.vars) most found (places tokens.now)) }
{
    if most == 0 {
        return Ok((found, tokens));
    }
    if !goes_on(context, tokens) {
        return Ok((found, tokens));
    }
    if most == 1 {
        return next_operand(context, found, tokens);
    }
    let half = most / 2;
    let (found, rest) = more_operands(context, half, found, tokens)?;
    more_operands(context, most - half, found, rest)
}

/// One operand or more.
#[tactic(auto, unfolding(crate::specs::SentenceReading::some_operands), using(crate::proofs::Carried::length_places))]
fn some_operands<'a>(context: &Context<'_>, tokens: &'a [Placed<'a>]) -> ReadIn<'a, List<Term>>
    ensures { ReadsAs result (spec.some_operands context.now.stop (table context.now) context.now.vars (places tokens.now)) }
{
    let (tree, rest) = operand_tree(context, tokens)?;
    let found = first_of(context.alloc, tree)?;
    more_operands(context, rest.len(), found, rest)
}

/// `$! A …`, if there is one.
#[tactic(auto, unfolding(crate::specs::SentenceReading::terms_in))]
fn terms_in<'a>(context: &Context<'_>, tokens: &'a [Placed<'a>]) -> ReadIn<'a, List<Term>>
    ensures { ReadsAs result (spec.terms_in context.now.stop (table context.now) context.now.vars (places tokens.now)) }
{
    if sees(Symbol::Terms, tokens) {
        some_operands(context, behind(tokens))
    } else {
        Ok(((List::new(context.alloc), None), tokens))
    }
}

// ---- proof terms

/// Behind a head.
#[tactic(auto, unfolding(crate::specs::SentenceReading::behind_head))]
fn behind_head<'a>(
    context: &Context<'_>,
    head: Head,
    tokens: &'a [Placed<'a>],
) -> ReadIn<'a, ProofTerm>
    ensures { ReadsAs result (spec.behind_head context.now.stop (table context.now) context.now.vars head (places tokens.now)) }
{
    let ((terms, deep), rest) = terms_in(context, tokens)?;
    let (spats, rest) = spats_in(context.alloc, context.stop, rest)?;
    Ok(((ProofTerm { head, terms, spats }, deep), rest))
}

/// Between parentheses.
#[tactic(auto, unfolding(crate::specs::SentenceReading::arguments_in))]
fn arguments_in<'a>(
    context: &Context<'_>,
    lemmas: bool,
    tokens: &'a [Placed<'a>],
) -> ReadIn<'a, ProofTerm>
    ensures { ReadsAs result (spec.arguments_in context.now.stop (table context.now) context.now.vars lemmas (places tokens.now)) }
{
    let (head, rest) = head_in(context.alloc, context.stop, lemmas, tokens)?;
    behind_head(context, head, rest)
}

/// A head alone as a proof term.
fn only_head<'a>(
    context: &Context<'_>,
    lemmas: bool,
    tokens: &'a [Placed<'a>],
) -> ReadIn<'a, ProofTerm>
    ensures { ReadsAs result (spec.only_head context.now.stop lemmas (places tokens.now)) }
{
    let (head, rest) = head_in(context.alloc, context.stop, lemmas, tokens)?;
    let terms = List::new(context.alloc);
    let spats = List::new(context.alloc);
    Ok(((ProofTerm { head, terms, spats }, None), rest))
}

/// A hypothesis, or a lemma where one may stand, or one with its terms and patterns in parentheses.
#[tactic(auto, unfolding(crate::specs::SentenceReading::proof_term, pm_terms::specs::Steps::closed_by))]
pub fn proof_term<'a>(
    context: &Context<'_>,
    lemmas: bool,
    tokens: &'a [Placed<'a>],
) -> ReadIn<'a, ProofTerm>
    ensures { ReadsAs result (spec.proof_term context.now.stop (table context.now) context.now.vars lemmas (places tokens.now)) }
{
    if !sees(Symbol::Open, tokens) {
        return only_head(context, lemmas, tokens);
    }
    let (proof, rest) = arguments_in(context, lemmas, behind(tokens))?;
    closed(Symbol::Close, context.stop, proof, rest)
}

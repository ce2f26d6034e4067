//! Directives, behind their first word.

ghost use Rattle.pm_tokens.specs.Tokens.{places};
ghost use Rattle.pm_terms.specs.Steps.{ReadsAs, made};
ghost use Rattle.pm_patterns.specs.PatternReading.{quoted_name, quoted_names, quoted_sels};
ghost use Rattle.pm_text.specs.Parts.{table};
ghost use Rattle.pm_script.specs.declared.directive.Directive.TheVariants as d;
ghost use Rattle.pm_script.specs.SentenceReading as spec;

use crate::directive::Directive;
use crate::parts::{
    allocated, any_name, any_names, any_sels, as_bound, as_name, as_pattern, asserted, in_name,
};
use crate::plain::{ReadPlain, combine, intros, linear, rename, revert, rewrite};
use crate::proof_terms::{proof_term, some_terms};
use crate::trees::{ReadIn, formula_tree, operand_tree, pure_tree};
use crate::words::{Form, PlainForm};
use pm_logic::{Formula, MAX_LEVELS, Pure};
use pm_patterns::{closed, quoted_name, quoted_sels};
use pm_terms::{Context, expect};
use pm_tokens::{Placed, Symbol};
use std::alloc::Global;

/// A directive with the offset of its first tree that is too deep, and the tokens behind it.
pub type ReadDirective<'a> = ReadIn<'a, Directive>;

/// A formula in parentheses.
#[tactic(auto, unfolding(crate::specs::SentenceReading::grouped_formula, pm_terms::specs::Steps::closed_by))]
fn grouped_formula<'a>(context: &Context<'_>, tokens: &'a [Placed<'a>]) -> ReadIn<'a, Formula>
    ensures { ReadsAs result (spec.grouped_formula context.now.stop (table context.now) context.now.vars (places tokens.now)) }
{
    let rest = expect(Symbol::Open, context.stop, tokens)?;
    let (tree, rest) = formula_tree(context, rest)?;
    closed(Symbol::Close, context.stop, tree, rest)
}

/// A pure formula in parentheses.
#[tactic(auto, unfolding(crate::specs::SentenceReading::grouped_pure, pm_terms::specs::Steps::closed_by))]
fn grouped_pure<'a>(context: &Context<'_>, tokens: &'a [Placed<'a>]) -> ReadIn<'a, Pure>
    ensures { ReadsAs result (spec.grouped_pure context.now.stop (table context.now) context.now.vars (places tokens.now)) }
{
    let rest = expect(Symbol::Open, context.stop, tokens)?;
    let (tree, rest) = pure_tree(context, rest)?;
    closed(Symbol::Close, context.stop, tree, rest)
}

/// Behind `iDestruct`.
#[tactic(auto, unfolding(crate::specs::SentenceReading::destruct))]
fn destruct<'a>(context: &Context<'_>, tokens: &'a [Placed<'a>]) -> ReadDirective<'a>
    ensures { ReadsAs result (spec.destruct context.now.stop (table context.now) context.now.vars (places tokens.now)) }
{
    let ((proof, deep), rest) = proof_term(context, true, tokens)?;
    let (pat, rest) = as_bound(context.alloc, context.stop, rest)?;
    Ok(((Directive::Destruct(proof, pat), deep), rest))
}

/// Behind `iPoseProof`.
#[tactic(auto, unfolding(crate::specs::SentenceReading::pose_proof))]
fn pose_proof<'a>(context: &Context<'_>, tokens: &'a [Placed<'a>]) -> ReadDirective<'a>
    ensures { ReadsAs result (spec.pose_proof context.now.stop (table context.now) context.now.vars (places tokens.now)) }
{
    let ((proof, deep), rest) = proof_term(context, true, tokens)?;
    let (pat, rest) = as_pattern(context.alloc, context.stop, MAX_LEVELS, rest)?;
    Ok(((Directive::PoseProof(proof, pat), deep), rest))
}

/// Behind `iMod`.
#[tactic(auto, unfolding(crate::specs::SentenceReading::eliminate))]
fn eliminate<'a>(context: &Context<'_>, tokens: &'a [Placed<'a>]) -> ReadDirective<'a>
    ensures { ReadsAs result (spec.eliminate context.now.stop (table context.now) context.now.vars (places tokens.now)) }
{
    let ((proof, deep), rest) = proof_term(context, true, tokens)?;
    let (pat, rest) = as_pattern(context.alloc, context.stop, MAX_LEVELS - 1, rest)?;
    Ok(((Directive::Mod(proof, pat), deep), rest))
}

/// Behind `iSpecialize`.
#[tactic(auto, unfolding(crate::specs::SentenceReading::specialize))]
fn specialize<'a>(context: &Context<'_>, tokens: &'a [Placed<'a>]) -> ReadDirective<'a>
    ensures { ReadsAs result (spec.specialize context.now.stop (table context.now) context.now.vars (places tokens.now)) }
{
    let ((proof, deep), rest) = proof_term(context, false, tokens)?;
    Ok(((Directive::Specialize(proof), deep), rest))
}

/// Behind `iApply`.
#[tactic(auto, unfolding(crate::specs::SentenceReading::apply))]
fn apply<'a>(context: &Context<'_>, tokens: &'a [Placed<'a>]) -> ReadDirective<'a>
    ensures { ReadsAs result (spec.apply context.now.stop (table context.now) context.now.vars (places tokens.now)) }
{
    let ((proof, deep), rest) = proof_term(context, true, tokens)?;
    Ok(((Directive::Apply(proof), deep), rest))
}

/// Behind `iAssert`.
#[tactic(auto, unfolding(crate::specs::SentenceReading::assert))]
fn assert<'a>(context: &Context<'_>, tokens: &'a [Placed<'a>]) -> ReadDirective<'a>
    ensures { ReadsAs result (spec.assert context.now.stop (table context.now) context.now.vars (places tokens.now)) }
{
    let ((f, deep), rest) = grouped_formula(context, tokens)?;
    let ((how, pat), rest) = asserted(context.alloc, context.stop, rest)?;
    Ok(((Directive::Assert(f, how, pat), deep), rest))
}

/// Behind `iExists`.
#[tactic(auto, unfolding(crate::specs::SentenceReading::exists_in))]
fn exists_in<'a>(context: &Context<'_>, tokens: &'a [Placed<'a>]) -> ReadDirective<'a>
    ensures { ReadsAs result (spec.exists_in context.now.stop (table context.now) context.now.vars (places tokens.now)) }
{
    let ((terms, deep), rest) = some_terms(context, tokens)?;
    Ok(((Directive::Exists(terms), deep), rest))
}

/// Behind `iFold`.
#[tactic(auto, unfolding(crate::specs::SentenceReading::fold))]
fn fold<'a>(context: &Context<'_>, tokens: &'a [Placed<'a>]) -> ReadDirective<'a>
    ensures { ReadsAs result (spec.fold context.now.stop (table context.now) context.now.vars (places tokens.now)) }
{
    let ((f, deep), rest) = grouped_formula(context, tokens)?;
    let (name, rest) = in_name(context.alloc, context.stop, rest)?;
    Ok(((Directive::Fold(f, name), deep), rest))
}

/// Behind `iWrite`.
#[tactic(auto, unfolding(crate::specs::SentenceReading::write))]
fn write<'a>(context: &Context<'_>, tokens: &'a [Placed<'a>]) -> ReadDirective<'a>
    ensures { ReadsAs result (spec.write context.now.stop (table context.now) context.now.vars (places tokens.now)) }
{
    let (name, rest) = quoted_name(context.alloc, context.stop, tokens)?;
    let ((value, deep), rest) = operand_tree(context, rest)?;
    Ok(((Directive::Write(name, value), deep), rest))
}

/// Behind `iAlloc`.
#[tactic(auto, unfolding(crate::specs::SentenceReading::alloc))]
fn alloc<'a>(context: &Context<'_>, tokens: &'a [Placed<'a>]) -> ReadDirective<'a>
    ensures { ReadsAs result (spec.alloc context.now.stop (table context.now) context.now.vars (places tokens.now)) }
{
    let ((value, deep), rest) = operand_tree(context, tokens)?;
    let ((name, pat), rest) = allocated(context.alloc, context.stop, rest)?;
    Ok(((Directive::Alloc(value, name, pat), deep), rest))
}

/// Behind `iCases`.
#[tactic(auto, unfolding(crate::specs::SentenceReading::cases))]
fn cases<'a>(context: &Context<'_>, tokens: &'a [Placed<'a>]) -> ReadDirective<'a>
    ensures { ReadsAs result (spec.cases context.now.stop (table context.now) context.now.vars (places tokens.now)) }
{
    let ((p, deep), rest) = grouped_pure(context, tokens)?;
    let (name, rest) = as_name(context.alloc, context.stop, rest)?;
    Ok(((Directive::Cases(p, name), deep), rest))
}

/// Behind `iSplitL`.
fn split_left<'a>(alloc: Global, stop: usize, tokens: &'a [Placed<'a>]) -> ReadPlain<'a>
    ensures { ReadsAs result (made d.SplitL (spec.if_any stop (quoted_names stop) (places tokens.now))) }
{
    let (names, rest) = any_names(alloc, stop, tokens)?;
    Ok((Directive::SplitL(names), rest))
}

/// Behind `iSplitR`.
fn split_right<'a>(alloc: Global, stop: usize, tokens: &'a [Placed<'a>]) -> ReadPlain<'a>
    ensures { ReadsAs result (made d.SplitR (spec.if_any stop (quoted_names stop) (places tokens.now))) }
{
    let (names, rest) = any_names(alloc, stop, tokens)?;
    Ok((Directive::SplitR(names), rest))
}

/// Behind `iExact`.
fn exact<'a>(alloc: Global, stop: usize, tokens: &'a [Placed<'a>]) -> ReadPlain<'a>
    ensures { ReadsAs result (made d.Exact (quoted_name stop (places tokens.now))) }
{
    let (name, rest) = quoted_name(alloc, stop, tokens)?;
    Ok((Directive::Exact(name), rest))
}

/// Behind `iClear`.
fn clear<'a>(alloc: Global, stop: usize, tokens: &'a [Placed<'a>]) -> ReadPlain<'a>
    ensures { ReadsAs result (made d.Clear (quoted_sels stop (places tokens.now))) }
{
    let (sels, rest) = quoted_sels(alloc, stop, tokens)?;
    Ok((Directive::Clear(sels), rest))
}

/// Behind `iFrame`.
fn frame<'a>(alloc: Global, stop: usize, tokens: &'a [Placed<'a>]) -> ReadPlain<'a>
    ensures { ReadsAs result (made d.Frame (spec.if_any stop (quoted_sels stop) (places tokens.now))) }
{
    let (sels, rest) = any_sels(alloc, stop, tokens)?;
    Ok((Directive::Frame(sels), rest))
}

/// Behind `iLöb`.
fn loeb<'a>(alloc: Global, stop: usize, tokens: &'a [Placed<'a>]) -> ReadPlain<'a>
    ensures { ReadsAs result (made d.Loeb (spec.as_name stop (places tokens.now))) }
{
    let (name, rest) = as_name(alloc, stop, tokens)?;
    Ok((Directive::Loeb(name), rest))
}

/// Behind `iUnfold`.
fn unfold<'a>(alloc: Global, stop: usize, tokens: &'a [Placed<'a>]) -> ReadPlain<'a>
    ensures { ReadsAs result (made d.Unfold (spec.if_any stop (quoted_name stop) (places tokens.now))) }
{
    let (name, rest) = any_name(alloc, stop, tokens)?;
    Ok((Directive::Unfold(name), rest))
}

/// A directive without trees, of this form, and none where the form has trees.
#[tactic(auto, unfolding(crate::specs::SentenceReading::plain_in))]
fn plain_in<'a>(context: &Context<'_>, form: PlainForm, tokens: &'a [Placed<'a>]) -> ReadPlain<'a>
    ensures { ReadsAs result (spec.plain_in context.now.stop form (places tokens.now)) }
{
    let alloc = context.alloc;
    let stop = context.stop;
    match form {
        PlainForm::Intros => intros(alloc, stop, tokens),
        PlainForm::Split => Ok((Directive::Split, tokens)),
        PlainForm::SplitL => split_left(alloc, stop, tokens),
        PlainForm::SplitR => split_right(alloc, stop, tokens),
        PlainForm::Left => Ok((Directive::Left, tokens)),
        PlainForm::Right => Ok((Directive::Right, tokens)),
        PlainForm::Assumption => Ok((Directive::Assumption, tokens)),
        PlainForm::ExFalso => Ok((Directive::ExFalso, tokens)),
        PlainForm::Done => Ok((Directive::Done, tokens)),
        PlainForm::Exact => exact(alloc, stop, tokens),
        PlainForm::Clear => clear(alloc, stop, tokens),
        PlainForm::Rename => rename(alloc, stop, tokens),
        PlainForm::Revert => revert(alloc, stop, tokens),
        PlainForm::Frame => frame(alloc, stop, tokens),
        PlainForm::ModIntro => Ok((Directive::ModIntro, tokens)),
        PlainForm::Next => Ok((Directive::Next, tokens)),
        PlainForm::Loeb => loeb(alloc, stop, tokens),
        PlainForm::Unfold => unfold(alloc, stop, tokens),
        PlainForm::Combine => combine(alloc, stop, tokens),
        PlainForm::PureIntro => Ok((Directive::PureIntro, tokens)),
        PlainForm::Rewrite => rewrite(alloc, stop, tokens),
        PlainForm::Linear => linear(alloc, stop, tokens),
    }
}

/// The same, with no tree that is too deep.
fn without_trees<'a>(
    context: &Context<'_>,
    form: PlainForm,
    tokens: &'a [Placed<'a>],
) -> ReadDirective<'a>
    ensures { ReadsAs result (spec.plain (spec.plain_in context.now.stop form (places tokens.now))) }
{
    let (directive, rest) = plain_in(context, form, tokens)?;
    Ok(((directive, None), rest))
}

/// The directive of this form, behind its first word.
#[tactic(auto, unfolding(crate::specs::SentenceReading::directive_in))]
pub fn directive_in<'a>(
    context: &Context<'_>,
    form: Form,
    tokens: &'a [Placed<'a>],
) -> ReadDirective<'a>
    ensures { ReadsAs result (spec.directive_in context.now.stop (table context.now) context.now.vars form (places tokens.now)) }
{
    match form {
        Form::Plain(form) => without_trees(context, form, tokens),
        Form::Destruct => destruct(context, tokens),
        Form::PoseProof => pose_proof(context, tokens),
        Form::Mod => eliminate(context, tokens),
        Form::Specialize => specialize(context, tokens),
        Form::Apply => apply(context, tokens),
        Form::Assert => assert(context, tokens),
        Form::Exists => exists_in(context, tokens),
        Form::Fold => fold(context, tokens),
        Form::Write => write(context, tokens),
        Form::Alloc => alloc(context, tokens),
        Form::Cases => cases(context, tokens),
    }
}

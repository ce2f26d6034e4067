//! Trees in a sentence, each with its offset where it is deeper than MAX_LEVELS levels.

ghost use Rattle.std.specs.Prelude.{◌≡◌, ◌<◌, nat_le};
ghost use Rattle.pm_logic.specs.declared.limits.TheConstants.{MAX_LEVELS};
ghost use Rattle.pm_logic.specs.Size as size;
ghost use Rattle.pm_tokens.specs.Tokens.{places};
ghost use Rattle.pm_terms.specs.Steps.{ReadsAs, offset};
ghost use Rattle.pm_text.specs.declared.level.Level.TheVariants.{Wands};
ghost use Rattle.pm_text.specs.FormulaReading as formulas;
ghost use Rattle.pm_text.specs.Parts.{table};
ghost use Rattle.pm_script.specs.SentenceReading as spec;

use pm_logic::{Formula, MAX_LEVELS, Pure, Term, depth, pure_depth, term_depth};
use pm_terms::{Context, PureLevel, TextFault, offset, operand_in, pure_in, sum_in};
use pm_text::{Level, formula_in};
use pm_tokens::Placed;
use smallvec::SmallVec;

/// What is read with the offset of its first tree that is too deep, and the tokens behind it.
pub type ReadIn<'a, T> = Result<((T, Option<u64>), &'a [Placed<'a>]), TextFault>;

/// A formula, and the tokens behind it.
pub type ReadFormula<'a> = Result<(Formula, &'a [Placed<'a>]), TextFault>;

/// The offset of a tree, where it is too deep.
fn deep_where(shallow: bool, stop: usize, tokens: &[Placed<'_>]) -> Option<u64>
    ensures { result ≡ spec.deep_where shallow (offset stop (places tokens.now)) }
{
    if shallow {
        None
    } else {
        Some(offset(stop, tokens))
    }
}

fn is_shallow_term(t: &Term) -> bool
    ensures { result ≡ nat_le (size.term_depth t.now) MAX_LEVELS }
{
    term_depth(t) <= MAX_LEVELS
}

fn is_shallow_pure(p: &Pure) -> bool
    ensures { result ≡ nat_le (size.pure_depth p.now) MAX_LEVELS }
{
    pure_depth(p) <= MAX_LEVELS
}

fn is_shallow(f: &Formula) -> bool
    ensures { result ≡ nat_le (size.depth_of f.now) MAX_LEVELS }
{
    depth(f) <= MAX_LEVELS
}

/// A term.
#[tactic(auto, unfolding(crate::specs::SentenceReading::term_tree, pm_terms::specs::Scope::names_in))]
pub fn term_tree<'a>(context: &Context<'_>, tokens: &'a [Placed<'a>]) -> ReadIn<'a, Term>
    ensures { ReadsAs result (spec.term_tree context.now.stop (table context.now) context.now.vars (places tokens.now)) }
{
    let (t, rest) = sum_in(context, MAX_LEVELS, &[], tokens)?;
    let deep = deep_where(is_shallow_term(&t), context.stop, tokens);
    Ok(((t, deep), rest))
}

/// An operand of a term.
#[tactic(auto, unfolding(crate::specs::SentenceReading::operand_tree, pm_terms::specs::Scope::names_in))]
pub fn operand_tree<'a>(context: &Context<'_>, tokens: &'a [Placed<'a>]) -> ReadIn<'a, Term>
    ensures { ReadsAs result (spec.operand_tree context.now.stop (table context.now) context.now.vars (places tokens.now)) }
{
    let (t, rest) = operand_in(context, MAX_LEVELS, &[], tokens)?;
    let deep = deep_where(is_shallow_term(&t), context.stop, tokens);
    Ok(((t, deep), rest))
}

/// A pure formula.
#[tactic(auto, unfolding(crate::specs::SentenceReading::pure_tree, pm_terms::specs::Scope::names_in))]
pub fn pure_tree<'a>(context: &Context<'_>, tokens: &'a [Placed<'a>]) -> ReadIn<'a, Pure>
    ensures { ReadsAs result (spec.pure_tree context.now.stop (table context.now) context.now.vars (places tokens.now)) }
{
    let (p, rest) = pure_in(context, MAX_LEVELS, PureLevel::Ors, &[], tokens)?;
    let deep = deep_where(is_shallow_pure(&p), context.stop, tokens);
    Ok(((p, deep), rest))
}

/// A formula before which so many constructs may be opened.
#[tactic(auto, unfolding(pm_terms::specs::Scope::names_in))]
pub fn formula_at<'a>(context: &Context<'_>, room: u32, tokens: &'a [Placed<'a>]) -> ReadFormula<'a>
    requires { room < 1000 }
    ensures { ReadsAs result (formulas.formula_in context.now.stop (table context.now) room Wands context.now.vars (places tokens.now)) }
{
    let mut bound = SmallVec::new(context.alloc);
    formula_in(context, room, Level::Wands, &mut bound, tokens)
}

/// A formula that is read from these tokens on, with its offset where it is too deep.
pub fn measured(f: Formula, stop: usize, tokens: &[Placed<'_>]) -> (Formula, Option<u64>)
    ensures { result ≡ (f, spec.too_deep (size.depth_of f) (offset stop (places tokens.now))) }
{
    let deep = deep_where(is_shallow(&f), stop, tokens);
    (f, deep)
}

/// A formula.
#[tactic(auto, unfolding(crate::specs::SentenceReading::formula_tree))]
pub fn formula_tree<'a>(context: &Context<'_>, tokens: &'a [Placed<'a>]) -> ReadIn<'a, Formula>
    ensures { ReadsAs result (spec.formula_tree context.now.stop (table context.now) context.now.vars (places tokens.now)) }
{
    let (f, rest) = formula_at(context, MAX_LEVELS, tokens)?;
    Ok((measured(f, context.stop, tokens), rest))
}

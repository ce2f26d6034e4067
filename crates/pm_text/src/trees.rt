//! Trees that are read from tokens, and to the end of a text.

ghost use Rattle.std.specs.Prelude.{◌≡◌, ℕ, List, nat_le};
ghost use Rattle.pm_logic.specs.declared.limits.TheConstants.{MAX_LEVELS};
ghost use Rattle.pm_logic.specs.Size as size;
ghost use Rattle.pm_tokens.specs.Tokens.{Place, places};
ghost use Rattle.pm_terms.specs.declared.level.PureLevel.TheVariants as pure_level;
ghost use Rattle.pm_terms.specs.PureReading.{pure_in};
ghost use Rattle.pm_terms.specs.Scope.{Callables, Names};
ghost use Rattle.pm_terms.specs.Steps.{ReadsAs, ReadsWhole, Read, all_of, offset, shallow};
ghost use Rattle.pm_terms.specs.TermReading.{sum_in};
ghost use Rattle.pm_text.specs.declared.level.Level.TheVariants as level;
ghost use Rattle.pm_text.specs.FormulaReading.{formula_in};
ghost use Rattle.pm_text.specs.Parts.{table};

use crate::formulas::formula_in;
use crate::level::Level;
use crate::points::ReadFormula;
use pm_logic::{Formula, MAX_LEVELS, Pure, Term, depth, pure_depth, term_depth};
use pm_terms::{Context, PureLevel, TextFault, is_whole, offset, pure_in, sum_in, unexpected};
use pm_tokens::Placed;
use smallvec::SmallVec;

/// A formula, a pure formula or a term.
pub trait Tree: Drop {
    /// What is read where the tokens end at this offset, with these predicates and variables.
    ghost reads: { ℕ → Callables → Names → List Place → Read Self };

    /// How deep the tree is.
    ghost levels: { Self → ℕ };

    /// A tree under no binder of the text, and the tokens behind it. The error is the first fault from left to right, or
    /// want of memory.
    fn read<'a, 'b>(
        context: &Context<'_>,
        tokens: &'a [Placed<'b>],
    ) -> Result<(Self, &'a [Placed<'b>]), TextFault>
        ensures { ReadsAs result (reads context.now.stop (table context.now) context.now.vars (places tokens.now)) };

    /// Whether the tree has no more levels than may be.
    fn is_shallow(&self) -> bool
        ensures { result ≡ nat_le (levels self.now) MAX_LEVELS };
}

impl Tree for Formula {
    ghost reads = { λ stop preds. formula_in stop preds MAX_LEVELS level.Wands };

    ghost levels = { size.depth_of };

    #[tactic(auto, unfolding(pm_terms::specs::Scope::names_in))]
    fn read<'a, 'b>(context: &Context<'_>, tokens: &'a [Placed<'b>]) -> ReadFormula<'a, 'b> {
        let mut bound = SmallVec::new(context.alloc);
        formula_in(context, MAX_LEVELS, Level::Wands, &mut bound, tokens)
    }

    fn is_shallow(&self) -> bool {
        depth(self) <= MAX_LEVELS
    }
}

impl Tree for Pure {
    ghost reads = { λ stop _ names. pure_in stop names MAX_LEVELS pure_level.Ors };

    ghost levels = { size.pure_depth };

    #[tactic(auto, unfolding(pm_terms::specs::Scope::names_in))]
    fn read<'a, 'b>(
        context: &Context<'_>,
        tokens: &'a [Placed<'b>],
    ) -> Result<(Pure, &'a [Placed<'b>]), TextFault> {
        pure_in(context, MAX_LEVELS, PureLevel::Ors, &[], tokens)
    }

    fn is_shallow(&self) -> bool {
        pure_depth(self) <= MAX_LEVELS
    }
}

impl Tree for Term {
    ghost reads = { λ stop _ names. sum_in stop names MAX_LEVELS };

    ghost levels = { size.term_depth };

    #[tactic(auto, unfolding(pm_terms::specs::Scope::names_in))]
    fn read<'a, 'b>(
        context: &Context<'_>,
        tokens: &'a [Placed<'b>],
    ) -> Result<(Term, &'a [Placed<'b>]), TextFault> {
        sum_in(context, MAX_LEVELS, &[], tokens)
    }

    fn is_shallow(&self) -> bool {
        term_depth(self) <= MAX_LEVELS
    }
}

/// A tree and nothing behind it in a text of length `end`.
#[tactic(auto, unfolding(pm_terms::specs::Steps::all_of))]
fn tree_to_end<T: Tree>(
    context: &Context<'_>,
    end: usize,
    tokens: &[Placed<'_>],
) -> Result<T, TextFault>
    ensures { ReadsWhole result (all_of end context.now.stop (T.reads context.now.stop (table context.now) context.now.vars (places tokens.now))) }
{
    let (tree, rest) = T::read(context, tokens)?;
    if is_whole(end, context.stop, rest) {
        Ok(tree)
    } else {
        Err(unexpected(context.stop, rest))
    }
}

/// A tree that isn't too deep, and nothing behind it in a text of length `end`.
#[tactic(auto, unfolding(pm_terms::specs::Steps::shallow))]
pub fn whole_tree<T: Tree>(
    context: &Context<'_>,
    end: usize,
    tokens: &[Placed<'_>],
) -> Result<T, TextFault>
    ensures { ReadsWhole result (shallow T.levels (offset context.now.stop (places tokens.now)) (all_of end context.now.stop (T.reads context.now.stop (table context.now) context.now.vars (places tokens.now)))) }
{
    let tree: T = tree_to_end(context, end, tokens)?;
    if tree.is_shallow() {
        Ok(tree)
    } else {
        Err(TextFault::Deep(offset(context.stop, tokens)))
    }
}

//! Whole texts. The offset of a fault is counted from the text's first byte on, which is at `base`.

ghost use Rattle.std.specs.Prelude.{◌≡◌, ℕ, ◌+◌, ◌<◌, ◌≤◌, ◌^◌, List, Result, None, length, IfOk};
ghost use Rattle.pm_logic.specs.declared.limits.TheConstants.{MAX_NAMES, MAX_TABLE};
ghost use Rattle.pm_logic.specs.declared.formula.Pred.{Pred};
ghost use Rattle.pm_tokens.specs.Tokens.{Place, places};
ghost use Rattle.pm_tokens.specs.Texts as texts;
ghost use Rattle.pm_terms.specs.declared.fault.TextFault.{TextFault};
ghost use Rattle.pm_terms.specs.Scope.{Names, callables};
ghost use Rattle.pm_terms.specs.Steps.{ReadsWhole, counted_from};
ghost use Rattle.pm_text.specs.FormulaReading as spec;
ghost use Rattle.pm_text.specs.TextReading as reading;

use crate::trees::whole_tree;
use pm_logic::{Formula, List, Name, Preds, Pure, Term};
use pm_name_sets::NameIndex;
use pm_terms::{Context, TextFault, moved};
use pm_tokens::{Placed, Tokens, tokens};
use std::alloc::{AllocError, Global};

/// What a whole text is read as.
pub trait Readable: Drop {
    /// The most bytes of a text.
    ghost most: { ℕ };

    /// What all tokens of a text are read as, with the predicates of a table and these variables, where the text has this
    /// length, and the tokens end at this offset.
    ghost whole: { List Pred → Names → ℕ → ℕ → List Place → Result Self TextFault };

    /// What all tokens of a text of length `end` are read as. The error is the first fault from left to right, or want of
    /// memory.
    fn whole(context: &Context<'_>, end: usize, tokens: &[Placed<'_>]) -> Result<Self, TextFault>
        requires short { length tokens.now ≤ most }
        requires outside { context.now.own ≡ None }
        ensures { ReadsWhole result (whole context.now.preds.now context.now.vars end context.now.stop (places tokens.now)) };
}

impl Readable for Formula {
    ghost most = { 2 ^ 64 };

    ghost whole = { λ preds. spec.formula_of (callables 0 preds) };

    #[tactic(auto, unfolding(crate::specs::FormulaReading::formula_of))]
    fn whole(
        context: &Context<'_>,
        end: usize,
        tokens: &[Placed<'_>],
    ) -> Result<Formula, TextFault> {
        whole_tree(context, end, tokens)
    }
}

impl Readable for Pure {
    ghost most = { 2 ^ 64 };

    ghost whole = { λ _. spec.pure_of };

    #[tactic(auto, unfolding(crate::specs::FormulaReading::pure_of))]
    fn whole(context: &Context<'_>, end: usize, tokens: &[Placed<'_>]) -> Result<Pure, TextFault> {
        whole_tree(context, end, tokens)
    }
}

impl Readable for Term {
    ghost most = { 2 ^ 64 };

    ghost whole = { λ _. spec.term_of };

    #[tactic(auto, unfolding(crate::specs::FormulaReading::term_of))]
    fn whole(context: &Context<'_>, end: usize, tokens: &[Placed<'_>]) -> Result<Term, TextFault> {
        whole_tree(context, end, tokens)
    }
}

/// The tokens of a text, of which there are no more than bytes.
fn all_tokens(alloc: Global, text: &[u8]) -> Result<Tokens, AllocError>
    ensures value { IfOk result (λ found. texts.lexed found ≡ texts.tokens text.now) }
    ensures few { IfOk result (λ found. length found.list.items ≤ length text.now) }
{
    let found = tokens(alloc, text)?;
    Ok(found)
}

/// What a text is read as, with the faults' offsets in the text.
fn read_tokens<'a, T: Readable>(
    alloc: Global,
    text: &[u8],
    vars: &'a List<Name>,
    preds: &'a Preds,
) -> Result<T, TextFault>
    requires short { length text.now ≤ T.most }
    requires few_vars { length vars.now ≤ MAX_NAMES }
    requires few_preds { length preds.now.list ≤ MAX_TABLE }
    ensures { ReadsWhole result (T.whole preds.now.list vars.now (length text.now) (texts.tokens text.now).1 (texts.tokens text.now).0) }
{
    let found = all_tokens(alloc, text)?;
    let context = Context {
        alloc,
        stop: found.stop,
        vars: NameIndex::new(alloc, vars.as_slice())?,
        preds: preds.list.as_slice(),
        own: None,
    };
    T::whole(&context, text.len(), found.list.as_slice())
}

/// Reads a whole text over these variables, index 0 first, and the predicates of the table. A fault is the text's first,
/// at the offset of its byte with `base` added: see `TextFault`. `Memory` says that memory ran out.
pub fn read_text<T: Readable>(
    alloc: Global,
    text: &[u8],
    base: u64,
    vars: &List<Name>,
    preds: &Preds,
) -> Result<T, TextFault>
    requires place { base + length text.now < 2 ^ 64 }
    requires short { length text.now ≤ T.most }
    requires few_vars { length vars.now ≤ MAX_NAMES }
    requires few_preds { length preds.now.list ≤ MAX_TABLE }
    ensures { ReadsWhole result (counted_from base (T.whole preds.now.list vars.now (length text.now) (texts.tokens text.now).1 (texts.tokens text.now).0)) }
{
    match read_tokens(alloc, text, vars, preds) {
        Ok(found) => Ok(found),
        Err(fault) => Err(moved(base, fault)),
    }
}

/// Reads a text as a formula: see `read_text`.
#[tactic(auto, unfolding(crate::specs::TextReading::read_formula))]
pub fn read_formula(
    alloc: Global,
    text: &[u8],
    base: u64,
    vars: &List<Name>,
    preds: &Preds,
) -> Result<Formula, TextFault>
    requires place { base + length text.now < 2 ^ 64 }
    requires few_vars { length vars.now ≤ MAX_NAMES }
    requires few_preds { length preds.now.list ≤ MAX_TABLE }
    ensures { ReadsWhole result (reading.read_formula base preds.now.list vars.now text.now) }
{
    read_text(alloc, text, base, vars, preds)
}

/// Reads a text as a pure formula: see `read_text`.
#[tactic(auto, unfolding(crate::specs::TextReading::read_pure))]
pub fn read_pure(
    alloc: Global,
    text: &[u8],
    base: u64,
    vars: &List<Name>,
    preds: &Preds,
) -> Result<Pure, TextFault>
    requires place { base + length text.now < 2 ^ 64 }
    requires few_vars { length vars.now ≤ MAX_NAMES }
    requires few_preds { length preds.now.list ≤ MAX_TABLE }
    ensures { ReadsWhole result (reading.read_pure base vars.now text.now) }
{
    read_text(alloc, text, base, vars, preds)
}

/// Reads a text as a term: see `read_text`.
#[tactic(auto, unfolding(crate::specs::TextReading::read_term))]
pub fn read_term(
    alloc: Global,
    text: &[u8],
    base: u64,
    vars: &List<Name>,
    preds: &Preds,
) -> Result<Term, TextFault>
    requires place { base + length text.now < 2 ^ 64 }
    requires few_vars { length vars.now ≤ MAX_NAMES }
    requires few_preds { length preds.now.list ≤ MAX_TABLE }
    ensures { ReadsWhole result (reading.read_term base vars.now text.now) }
{
    read_text(alloc, text, base, vars, preds)
}

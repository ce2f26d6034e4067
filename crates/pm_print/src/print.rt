//! What is printed: each call appends its text, whole or not at all.

ghost use Rattle.std.specs.Prelude.{◌≡◌, ◌≤◌, ◌++◌, OnOk, OnErr};
ghost use Rattle.pm_logic.specs.declared.formula.TheConstants.{BOUND};
ghost use Rattle.pm_logic.specs.Size.{depth_of};
ghost use Rattle.pm_print.specs.Printing.{term_text, pure_text, formula_text};
ghost use Rattle.pm_print.specs.Lines.{predicate_line, lemma_line};

use crate::formulas::add_formula;
use crate::lines::{add_lemma_line, add_predicate_line};
use crate::pures::add_pure;
use crate::terms::add_term;
use pm_logic::{Bytes, Formula, List, Memory, Name, Pred, Preds, Pure, Term};
use std::alloc::Global;

/// Appends the text of a term, whose index `i` is named `vars[i]`. After an error `out` is as before.
#[tactic(auto, using(crate::proofs::Named::no_binders))]
pub fn print_term(alloc: Global, t: &Term, vars: &List<Name>, out: &mut Bytes) -> Result<(), Memory>
    ensures ok { OnOk result (out.new ≡ out.old ++ term_text vars.now t.now) }
    ensures err { OnErr result (out.new ≡ out.old) }
{
    let mut text = Bytes::new(alloc);
    add_term(&mut text, 0, vars.as_slice(), 0, t)?;
    out.extend(text.as_slice())
}

/// Appends the text of a pure formula, whose index `i` is named `vars[i]`. After an error `out` is as before.
#[tactic(auto, using(crate::proofs::Named::no_binders))]
pub fn print_pure(alloc: Global, p: &Pure, vars: &List<Name>, out: &mut Bytes) -> Result<(), Memory>
    ensures ok { OnOk result (out.new ≡ out.old ++ pure_text vars.now p.now) }
    ensures err { OnErr result (out.new ≡ out.old) }
{
    let mut text = Bytes::new(alloc);
    add_pure(&mut text, 0, vars.as_slice(), 0, p)?;
    out.extend(text.as_slice())
}

/// Appends the text of a formula, whose index `i` is named `vars[i]`; a bound variable is named `_k` by the number `k`
/// of variables around its binder. The formula's depth is at most `BOUND`. After an error `out` is as before.
#[tactic(auto, using(crate::proofs::Named::no_binders))]
pub fn print_formula(
    alloc: Global,
    f: &Formula,
    vars: &List<Name>,
    preds: &Preds,
    out: &mut Bytes,
) -> Result<(), Memory>
    requires { depth_of f.now ≤ BOUND }
    ensures ok { OnOk result (out.new ≡ out.old ++ formula_text preds.now.list vars.now f.now) }
    ensures err { OnErr result (out.new ≡ out.old) }
{
    let mut text = Bytes::new(alloc);
    add_formula(&mut text, preds.list.as_slice(), 0, vars.as_slice(), 0, f)?;
    out.extend(text.as_slice())
}

/// Appends a predicate's line, `Predicate p(_0, _1) := F.` and a line feed. The body's depth is at most `BOUND`.
/// After an error `out` is as before.
pub fn print_predicate(
    alloc: Global,
    pred: &Pred,
    preds: &Preds,
    out: &mut Bytes,
) -> Result<(), Memory>
    requires { depth_of pred.now.body ≤ BOUND }
    ensures ok { OnOk result (out.new ≡ out.old ++ predicate_line preds.now.list pred.now) }
    ensures err { OnErr result (out.new ≡ out.old) }
{
    let mut text = Bytes::new(alloc);
    add_predicate_line(alloc, &mut text, pred, preds.list.as_slice())?;
    out.extend(text.as_slice())
}

/// Appends a statement's line, `Lemma n : F.` and a line feed. The formula has no free variable, and its depth is at
/// most `BOUND`. After an error `out` is as before.
pub fn print_lemma(
    alloc: Global,
    name: &Name,
    f: &Formula,
    preds: &Preds,
    out: &mut Bytes,
) -> Result<(), Memory>
    requires { depth_of f.now ≤ BOUND }
    ensures ok { OnOk result (out.new ≡ out.old ++ lemma_line preds.now.list name.now f.now) }
    ensures err { OnErr result (out.new ≡ out.old) }
{
    let mut text = Bytes::new(alloc);
    add_lemma_line(alloc, &mut text, name, f, preds.list.as_slice())?;
    out.extend(text.as_slice())
}

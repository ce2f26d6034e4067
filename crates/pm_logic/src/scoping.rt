//! Formulas that are scoped in a table of predicates and a number of variables.

ghost use Rattle.std.specs.Prelude.{◌↔◌, ◌+◌, ◌≤◌, length, IsTrue};
ghost use Rattle.pm_logic.specs.Scope.{TermScoped, TermsScoped, PureScoped, ScopedIn, CallFits, CallsFit, Scoped};
ghost use Rattle.pm_logic.specs.Size.{depth_of};

use crate::formula::{BOUND, Formula, Pred, Preds, Pure, Term, UNIT};

/// Whether every free index of `f` is below `k`, each of its calls names a predicate of `preds` and has as many
/// arguments as its arity, and its units are 1 to `UNIT`. `k` and the depth of `f` are together at most `BOUND`.
pub fn scoped(preds: &Preds, k: u32, f: &Formula) -> bool
    requires { k + depth_of f.now ≤ BOUND }
    ensures { IsTrue result ↔ Scoped preds.now k f.now }
{
    scoped_in(k, f) && calls_fit(preds.list.as_slice(), f)
}

#[tactic(auto, using(crate::proofs::Scopes::term_scopes))]
fn term_scoped(k: u32, t: &Term) -> bool
    ensures { IsTrue result ↔ TermScoped k t.now }
{
    match t {
        Term::Lit(_) => true,
        Term::Var(i) => *i < k,
        Term::Add(a, b) | Term::Sub(a, b) => term_scoped(k, a.get()) && term_scoped(k, b.get()),
        Term::Neg(a) | Term::Scale(_, a) => term_scoped(k, a.get()),
    }
}

#[tactic(auto, using(crate::proofs::Scopes::list_scopes))]
fn terms_scoped(k: u32, ts: &[Term]) -> bool
    ensures { IsTrue result ↔ TermsScoped k ts.now }
{
    for t in ts {
        if !term_scoped(k, t) {
            return false;
        }
    }
    true
}

#[tactic(auto, using(crate::proofs::Scopes::pure_scopes))]
fn pure_scoped(k: u32, p: &Pure) -> bool
    ensures { IsTrue result ↔ PureScoped k p.now }
{
    match p {
        Pure::True | Pure::False => true,
        Pure::Eq(s, t) | Pure::Le(s, t) | Pure::Lt(s, t) => term_scoped(k, s) && term_scoped(k, t),
        Pure::And(a, b) | Pure::Or(a, b) => pure_scoped(k, a.get()) && pure_scoped(k, b.get()),
        Pure::Not(a) => pure_scoped(k, a.get()),
    }
}

#[tactic(auto, using(crate::proofs::Scopes::formula_scopes))]
fn scoped_in(k: u32, f: &Formula) -> bool
    requires { k + depth_of f.now ≤ BOUND }
    ensures { IsTrue result ↔ ScopedIn k f.now }
{
    match f {
        Formula::Pure(p) => pure_scoped(k, p),
        Formula::Sep(a, b)
        | Formula::Wand(a, b)
        | Formula::And(a, b)
        | Formula::Or(a, b)
        | Formula::Imp(a, b) => scoped_in(k, a.get()) && scoped_in(k, b.get()),
        Formula::All(a) | Formula::Ex(a) => scoped_in(k + 1, a.get()),
        Formula::Later(a) | Formula::Pers(a) | Formula::Upd(a) => scoped_in(k, a.get()),
        Formula::Pts { loc, val, .. } => term_scoped(k, loc) && term_scoped(k, val),
        Formula::Call { args, .. } => terms_scoped(k, args.as_slice()),
    }
}

fn call_fits(preds: &[Pred], pred: u32, args: &[Term]) -> bool
    ensures { IsTrue result ↔ CallFits preds.now pred (length args.now) }
{
    match preds.get(pred as usize) {
        Some(p) => args.len() == p.arity as usize,
        None => false,
    }
}

#[tactic(auto, using(crate::proofs::Scopes::fits))]
fn calls_fit(preds: &[Pred], f: &Formula) -> bool
    ensures { IsTrue result ↔ CallsFit preds.now f.now }
{
    match f {
        Formula::Pure(_) => true,
        Formula::Sep(a, b)
        | Formula::Wand(a, b)
        | Formula::And(a, b)
        | Formula::Or(a, b)
        | Formula::Imp(a, b) => calls_fit(preds, a.get()) && calls_fit(preds, b.get()),
        Formula::All(a) | Formula::Ex(a) => calls_fit(preds, a.get()),
        Formula::Later(a) | Formula::Pers(a) | Formula::Upd(a) => calls_fit(preds, a.get()),
        Formula::Pts { units, .. } => 1 <= *units && *units <= UNIT,
        Formula::Call { pred, args } => call_fits(preds, *pred, args.as_slice()),
    }
}

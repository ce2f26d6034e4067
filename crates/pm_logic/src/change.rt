//! Copies of trees with their terms changed.

ghost use Rattle.std.specs.Prelude.{◌≡◌, IfOk, map};
ghost use Rattle.pm_logic.specs.Abstraction.{abstracted, term_eq};
ghost use Rattle.pm_logic.specs.Substitution.{raised_by};
ghost use Rattle.pm_logic.specs.Scope.{TermsScoped};
ghost use Rattle.pm_logic.specs.Bounds.{past_indices};
ghost use Rattle.pm_logic.specs.Changes.{changed_pure, changed};
ghost use Rattle.pm_logic.specs.Walks.{change_of, TermFits, TermsFit, PureFits, FormulaFits};
ghost use Rattle.pm_logic.specs.declared.change.Change.TheVariants.{Abstract};

use crate::filling::Fill;
use crate::formula::{Formula, Pure, Term};
use crate::list::{List, Memory};
use crate::raising::is_raised;
use crate::replace::{index_at, replace};
use crate::{building, node};
use std::alloc::Global;

/// What is done to the terms of a tree.
#[derive(Clone, Copy)]
pub enum Change {
    /// Other terms stand for the free indices.
    Replace(Fill),
    /// The first of the terms that are handed becomes a new variable.
    Abstract,
}

/// Whether `t`, which stands under `d` binders, is `s` raised by them.
fn is_target(s: &Term, d: u32, t: &Term) -> bool
    ensures { result ≡ term_eq t.now (raised_by d s.now) }
{
    is_raised(d, s, t)
}

/// The term, which stands under `d` binders, with a new variable, index `d`, for each subterm that is `s` raised by
/// them.
#[tactic(auto, using(crate::proofs::Abstracting::abstracting))]
fn abstract_in(alloc: Global, s: &Term, d: u32, t: &Term) -> Result<Term, Memory>
    requires { TermFits Abstract d t.now }
    ensures { IfOk result (λ u. u ≡ abstracted d (raised_by d s.now) t.now) }
{
    if is_target(s, d, t) {
        return Ok(Term::Var(d));
    }
    match t {
        Term::Lit(z) => Ok(Term::Lit(*z)),
        Term::Var(i) => index_at(alloc, Fill::OneUp, &[], d, *i),
        Term::Add(a, b) => {
            let a = abstract_in(alloc, s, d, a.get())?;
            let b = abstract_in(alloc, s, d, b.get())?;
            building::add(alloc, a, b)
        }
        Term::Sub(a, b) => {
            let a = abstract_in(alloc, s, d, a.get())?;
            let b = abstract_in(alloc, s, d, b.get())?;
            building::sub(alloc, a, b)
        }
        Term::Neg(a) => {
            let a = abstract_in(alloc, s, d, a.get())?;
            building::neg(alloc, a)
        }
        Term::Scale(z, a) => {
            let a = abstract_in(alloc, s, d, a.get())?;
            building::scale(alloc, *z, a)
        }
    }
}

/// The term, which stands under `d` binders, after the change.
#[tactic(auto, using(crate::proofs::Changes::term_changes))]
pub fn change_term(
    alloc: Global,
    change: Change,
    terms: &[Term],
    d: u32,
    t: &Term,
) -> Result<Term, Memory>
    requires terms { TermsScoped past_indices terms.now }
    requires fits { TermFits change d t.now }
    ensures { IfOk result (λ u. u ≡ change_of change terms.now d t.now) }
{
    match change {
        Change::Replace(fill) => replace(alloc, fill, terms, d, t),
        Change::Abstract => match terms.first() {
            Some(s) => abstract_in(alloc, s, d, t),
            None => replace(alloc, Fill::Itself, terms, d, t),
        },
    }
}

/// The terms, which stand under `d` binders, after the change.
#[tactic(auto, using(crate::proofs::Changes::list_changes))]
fn change_terms(
    alloc: Global,
    change: Change,
    terms: &[Term],
    d: u32,
    ts: &[Term],
) -> Result<List<Term>, Memory>
    requires terms { TermsScoped past_indices terms.now }
    requires fits { TermsFit change d ts.now }
    ensures { IfOk result (λ us. us ≡ map (change_of change terms.now d) ts.now) }
{
    let mut out = List::new(alloc);
    for t in ts {
        out.push(change_term(alloc, change, terms, d, t)?)?;
    }
    Ok(out)
}

/// The pure formula, which stands under `d` binders, after the change.
#[tactic(auto, using(crate::proofs::Changes::pure_changes))]
pub fn change_pure(
    alloc: Global,
    change: Change,
    terms: &[Term],
    d: u32,
    p: &Pure,
) -> Result<Pure, Memory>
    requires terms { TermsScoped past_indices terms.now }
    requires fits { PureFits change d p.now }
    ensures { IfOk result (λ q. q ≡ changed_pure (change_of change terms.now d) p.now) }
{
    match p {
        Pure::True => Ok(Pure::True),
        Pure::False => Ok(Pure::False),
        Pure::Eq(s, t) | Pure::Le(s, t) | Pure::Lt(s, t) => {
            let s = change_term(alloc, change, terms, d, s)?;
            let t = change_term(alloc, change, terms, d, t)?;
            Ok(node::compared(p, s, t))
        }
        Pure::And(a, b) | Pure::Or(a, b) => {
            let a = change_pure(alloc, change, terms, d, a.get())?;
            let b = change_pure(alloc, change, terms, d, b.get())?;
            node::joined(alloc, p, a, b)
        }
        Pure::Not(a) => {
            let a = change_pure(alloc, change, terms, d, a.get())?;
            building::pure_not(alloc, a)
        }
    }
}

/// The formula, which stands under `d` binders, after the change.
#[tactic(auto, using(crate::proofs::Changes::changes))]
pub fn change_formula(
    alloc: Global,
    how: Change,
    terms: &[Term],
    d: u32,
    f: &Formula,
) -> Result<Formula, Memory>
    requires terms { TermsScoped past_indices terms.now }
    requires fits { FormulaFits how d f.now }
    ensures { IfOk result (λ g. g ≡ changed (change_of how terms.now) d f.now) }
{
    match f {
        Formula::Pure(p) => Ok(Formula::Pure(change_pure(alloc, how, terms, d, p)?)),
        Formula::Sep(a, b)
        | Formula::Wand(a, b)
        | Formula::And(a, b)
        | Formula::Or(a, b)
        | Formula::Imp(a, b) => {
            let a = change_formula(alloc, how, terms, d, a.get())?;
            let b = change_formula(alloc, how, terms, d, b.get())?;
            node::pair(alloc, f, a, b)
        }
        Formula::All(a) | Formula::Ex(a) => {
            let a = change_formula(alloc, how, terms, d.saturating_add(1), a.get())?;
            node::single(alloc, f, a)
        }
        Formula::Later(a) | Formula::Pers(a) | Formula::Upd(a) => {
            let a = change_formula(alloc, how, terms, d, a.get())?;
            node::single(alloc, f, a)
        }
        Formula::Pts { loc, units, val } => {
            let loc = change_term(alloc, how, terms, d, loc)?;
            let val = change_term(alloc, how, terms, d, val)?;
            let units = *units;
            Ok(Formula::Pts { loc, units, val })
        }
        Formula::Call { pred, args } => {
            let args = change_terms(alloc, how, terms, d, args.as_slice())?;
            Ok(Formula::Call { pred: *pred, args })
        }
    }
}

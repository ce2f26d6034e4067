//! Terms with other terms in place of their free indices.

ghost use Rattle.std.specs.Prelude.{◌≡◌, ◌≤◌, IfOk};
ghost use Rattle.pm_logic.specs.Substitution.{entries, under_by};
ghost use Rattle.pm_logic.specs.Scope.{TermsScoped};
ghost use Rattle.pm_logic.specs.Bounds.{past_indices};
ghost use Rattle.pm_logic.specs.Walks.{first_of, filled, replaced, IndexFits, TermFits};
ghost use Rattle.pm_logic.specs.declared.change.Change.TheVariants.{Replace};

use crate::building;
use crate::filling::Fill;
use crate::formula::{BOUND, Term};
use crate::list::Memory;
use crate::raising::raise;
use sqlite_items::at;
use std::alloc::Global;

/// What stands under `d` binders for index `i`, which is free: the term in its place, raised, and 0 past their end.
fn entry_at(alloc: Global, terms: &[Term], d: u32, i: u32) -> Result<Term, Memory>
    requires terms { TermsScoped past_indices terms.now }
    requires binders { d ≤ BOUND }
    requires free { d ≤ i }
    ensures { IfOk result (λ u. u ≡ under_by d (entries terms.now) i) }
{
    match at(terms, (i - d) as usize) {
        Some(t) => raise(alloc, d, t),
        None => Ok(Term::Lit(0)),
    }
}

/// What stands under `d` binders for index `i`, which is free: the first term, raised, for the first, and one index
/// lower for each other.
fn first_at(alloc: Global, terms: &[Term], d: u32, i: u32) -> Result<Term, Memory>
    requires terms { TermsScoped past_indices terms.now }
    requires binders { d ≤ BOUND }
    requires free { d ≤ i }
    ensures { IfOk result (λ u. u ≡ under_by d (first_of terms.now) i) }
{
    match terms.first() {
        None => Ok(Term::Var(i)),
        Some(t) => if i == d {
            raise(alloc, d, t)
        } else {
            Ok(Term::Var(i - 1))
        },
    }
}

/// What stands under `d` binders for index `i`.
#[tactic(auto, using(crate::proofs::Indices::indices))]
pub fn index_at(alloc: Global, fill: Fill, terms: &[Term], d: u32, i: u32) -> Result<Term, Memory>
    requires terms { TermsScoped past_indices terms.now }
    requires fits { IndexFits fill d i }
    ensures { IfOk result (λ u. u ≡ under_by d (filled fill terms.now) i) }
{
    if i < d {
        return Ok(Term::Var(i));
    }
    match fill {
        Fill::Itself => Ok(Term::Var(i)),
        Fill::Entries => entry_at(alloc, terms, d, i),
        Fill::First => first_at(alloc, terms, d, i),
        Fill::OneUp => Ok(Term::Var(i + 1)),
    }
}

/// The term, which stands under `d` binders, with other terms in place of its free indices.
#[tactic(auto, using(crate::proofs::Replaces::replacing))]
pub fn replace(alloc: Global, fill: Fill, terms: &[Term], d: u32, t: &Term) -> Result<Term, Memory>
    requires terms { TermsScoped past_indices terms.now }
    requires fits { TermFits (Replace fill) d t.now }
    ensures { IfOk result (λ u. u ≡ replaced (filled fill terms.now) d t.now) }
{
    match t {
        Term::Lit(z) => Ok(Term::Lit(*z)),
        Term::Var(i) => index_at(alloc, fill, terms, d, *i),
        Term::Add(a, b) => {
            let a = replace(alloc, fill, terms, d, a.get())?;
            let b = replace(alloc, fill, terms, d, b.get())?;
            building::add(alloc, a, b)
        }
        Term::Sub(a, b) => {
            let a = replace(alloc, fill, terms, d, a.get())?;
            let b = replace(alloc, fill, terms, d, b.get())?;
            building::sub(alloc, a, b)
        }
        Term::Neg(a) => {
            let a = replace(alloc, fill, terms, d, a.get())?;
            building::neg(alloc, a)
        }
        Term::Scale(z, a) => {
            let a = replace(alloc, fill, terms, d, a.get())?;
            building::scale(alloc, *z, a)
        }
    }
}

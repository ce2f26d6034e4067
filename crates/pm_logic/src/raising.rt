//! Terms with every index raised.

ghost use Rattle.std.specs.Prelude.{◌≡◌, ◌↔◌, ◌≤◌, IfOk, IsTrue};
ghost use Rattle.pm_logic.specs.Substitution.{raised_by};
ghost use Rattle.pm_logic.specs.Scope.{TermScoped};
ghost use Rattle.pm_logic.specs.Bounds.{past_indices};

use crate::building;
use crate::formula::{BOUND, Term};
use crate::list::Memory;
use std::alloc::Global;

/// The term with each index `d` higher.
#[tactic(auto, using(crate::proofs::Raises::raising))]
pub fn raise(alloc: Global, d: u32, t: &Term) -> Result<Term, Memory>
    requires binders { d ≤ BOUND }
    requires indices { TermScoped past_indices t.now }
    ensures { IfOk result (λ u. u ≡ raised_by d t.now) }
{
    match t {
        Term::Lit(z) => Ok(Term::Lit(*z)),
        Term::Var(i) => Ok(Term::Var(*i + d)),
        Term::Add(a, b) => {
            let a = raise(alloc, d, a.get())?;
            let b = raise(alloc, d, b.get())?;
            building::add(alloc, a, b)
        }
        Term::Sub(a, b) => {
            let a = raise(alloc, d, a.get())?;
            let b = raise(alloc, d, b.get())?;
            building::sub(alloc, a, b)
        }
        Term::Neg(a) => {
            let a = raise(alloc, d, a.get())?;
            building::neg(alloc, a)
        }
        Term::Scale(z, a) => {
            let a = raise(alloc, d, a.get())?;
            building::scale(alloc, *z, a)
        }
    }
}

/// Whether `u` is `t` with each index `d` higher.
#[tactic(auto, using(crate::proofs::Raises::raising))]
pub fn is_raised(d: u32, t: &Term, u: &Term) -> bool
    ensures { IsTrue result ↔ (u.now ≡ raised_by d t.now) }
{
    match (t, u) {
        (Term::Lit(x), Term::Lit(y)) => *x == *y,
        (Term::Var(i), Term::Var(j)) => *i as u64 + d as u64 == *j as u64,
        (Term::Add(a, b), Term::Add(p, q)) => {
            is_raised(d, a.get(), p.get()) && is_raised(d, b.get(), q.get())
        }
        (Term::Sub(a, b), Term::Sub(p, q)) => {
            is_raised(d, a.get(), p.get()) && is_raised(d, b.get(), q.get())
        }
        (Term::Neg(a), Term::Neg(p)) => is_raised(d, a.get(), p.get()),
        (Term::Scale(x, a), Term::Scale(y, p)) => *x == *y && is_raised(d, a.get(), p.get()),
        _ => false,
    }
}

//! Equal trees.

ghost use Rattle.std.specs.Prelude.{◌≡◌, ◌↔◌, IsTrue};

use crate::formula::{Formula, Pure, Term};

/// Whether the terms are equal trees.
pub fn same_term(a: &Term, b: &Term) -> bool
    ensures { IsTrue result ↔ (a.now ≡ b.now) }
{
    match (a, b) {
        (Term::Lit(x), Term::Lit(y)) => *x == *y,
        (Term::Var(x), Term::Var(y)) => *x == *y,
        (Term::Add(p, q), Term::Add(r, s)) => {
            same_term(p.get(), r.get()) && same_term(q.get(), s.get())
        }
        (Term::Sub(p, q), Term::Sub(r, s)) => {
            same_term(p.get(), r.get()) && same_term(q.get(), s.get())
        }
        (Term::Neg(p), Term::Neg(r)) => same_term(p.get(), r.get()),
        (Term::Scale(x, p), Term::Scale(y, r)) => *x == *y && same_term(p.get(), r.get()),
        _ => false,
    }
}

fn same_terms(a: &[Term], b: &[Term]) -> bool
    ensures { IsTrue result ↔ (a.now ≡ b.now) }
{
    if a.len() != b.len() {
        return false;
    }
    for (i, x) in a.iter().enumerate() {
        if !same_term(x, &b[i]) {
            return false;
        }
    }
    true
}

/// Whether the pure formulas are equal trees.
pub fn same_pure(a: &Pure, b: &Pure) -> bool
    ensures { IsTrue result ↔ (a.now ≡ b.now) }
{
    match (a, b) {
        (Pure::True, Pure::True) => true,
        (Pure::False, Pure::False) => true,
        (Pure::Eq(p, q), Pure::Eq(r, s)) => same_term(p, r) && same_term(q, s),
        (Pure::Le(p, q), Pure::Le(r, s)) => same_term(p, r) && same_term(q, s),
        (Pure::Lt(p, q), Pure::Lt(r, s)) => same_term(p, r) && same_term(q, s),
        (Pure::And(p, q), Pure::And(r, s)) => {
            same_pure(p.get(), r.get()) && same_pure(q.get(), s.get())
        }
        (Pure::Or(p, q), Pure::Or(r, s)) => {
            same_pure(p.get(), r.get()) && same_pure(q.get(), s.get())
        }
        (Pure::Not(p), Pure::Not(r)) => same_pure(p.get(), r.get()),
        _ => false,
    }
}

/// Whether the formulas are equal trees.
pub fn same(a: &Formula, b: &Formula) -> bool
    ensures { IsTrue result ↔ (a.now ≡ b.now) }
{
    match (a, b) {
        (Formula::Pure(p), Formula::Pure(r)) => same_pure(p, r),
        (Formula::Sep(p, q), Formula::Sep(r, s)) => same(p.get(), r.get())
            && same(q.get(), s.get()),
        (Formula::Wand(p, q), Formula::Wand(r, s)) => same(p.get(), r.get())
            && same(q.get(), s.get()),
        (Formula::And(p, q), Formula::And(r, s)) => same(p.get(), r.get())
            && same(q.get(), s.get()),
        (Formula::Or(p, q), Formula::Or(r, s)) => same(p.get(), r.get()) && same(q.get(), s.get()),
        (Formula::Imp(p, q), Formula::Imp(r, s)) => same(p.get(), r.get())
            && same(q.get(), s.get()),
        (Formula::All(p), Formula::All(r)) => same(p.get(), r.get()),
        (Formula::Ex(p), Formula::Ex(r)) => same(p.get(), r.get()),
        (Formula::Later(p), Formula::Later(r)) => same(p.get(), r.get()),
        (Formula::Pers(p), Formula::Pers(r)) => same(p.get(), r.get()),
        (Formula::Upd(p), Formula::Upd(r)) => same(p.get(), r.get()),
        (
            Formula::Pts {
                loc: l,
                units: u,
                val: v,
            },
            Formula::Pts {
                loc: m,
                units: w,
                val: x,
            },
        ) => { same_term(l, m) && *u == *w && same_term(v, x) }
        (Formula::Call { pred: p, args: a }, Formula::Call { pred: q, args: b }) => {
            *p == *q && same_terms(a.as_slice(), b.as_slice())
        }
        _ => false,
    }
}

//! Tests whether a tree is another one with other terms in place of its free indices.

ghost use Rattle.std.specs.Prelude.{◌≡◌, ◌↔◌, ◌+◌, ◌≤◌, IsTrue, map};
ghost use Rattle.pm_logic.specs.Substitution.{entries, under_by};
ghost use Rattle.pm_logic.specs.Changes.{changed_pure, changed};
ghost use Rattle.pm_logic.specs.Size.{depth_of};
ghost use Rattle.pm_logic.specs.Walks.{first_of, filled, replaced};

use crate::equality::same_term;
use crate::filling::Fill;
use crate::formula::{BOUND, Formula, Pure, Term};
use crate::raising::is_raised;
use sqlite_items::at;

/// Whether the term is the variable of this index.
fn is_var(i: u64, u: &Term) -> bool
    ensures { IsTrue result ↔ (u.now ≡ Term.Var i) }
{
    match u {
        Term::Var(j) => *j as u64 == i,
        _ => false,
    }
}

/// Whether `u` is what `entry_at` gives.
fn is_entry(terms: &[Term], d: u32, i: u32, u: &Term) -> bool
    requires { d ≤ i }
    ensures { IsTrue result ↔ (u.now ≡ under_by d (entries terms.now) i) }
{
    match at(terms, (i - d) as usize) {
        Some(t) => is_raised(d, t, u),
        None => same_term(u, &Term::Lit(0)),
    }
}

/// Whether `u` is what `first_at` gives.
fn is_first(terms: &[Term], d: u32, i: u32, u: &Term) -> bool
    requires { d ≤ i }
    ensures { IsTrue result ↔ (u.now ≡ under_by d (first_of terms.now) i) }
{
    match terms.first() {
        None => is_var(i as u64, u),
        Some(t) => if i == d {
            is_raised(d, t, u)
        } else {
            is_var(i as u64 - 1, u)
        },
    }
}

/// Whether `u` is what stands under `d` binders for index `i`.
#[tactic(auto, using(crate::proofs::Indices::indices))]
fn is_index(fill: Fill, terms: &[Term], d: u32, i: u32, u: &Term) -> bool
    ensures { IsTrue result ↔ (u.now ≡ under_by d (filled fill terms.now) i) }
{
    if i < d {
        return is_var(i as u64, u);
    }
    match fill {
        Fill::Itself => is_var(i as u64, u),
        Fill::Entries => is_entry(terms, d, i, u),
        Fill::First => is_first(terms, d, i, u),
        Fill::OneUp => is_var(i as u64 + 1, u),
    }
}

/// Whether `u` is the term, which stands under `d` binders, with other terms in place of its free indices.
#[tactic(auto, using(crate::proofs::Replaces::replaces))]
fn is_replaced(fill: Fill, terms: &[Term], d: u32, t: &Term, u: &Term) -> bool
    ensures { IsTrue result ↔ (u.now ≡ replaced (filled fill terms.now) d t.now) }
{
    match (t, u) {
        (Term::Lit(x), Term::Lit(y)) => *x == *y,
        (Term::Var(i), _) => is_index(fill, terms, d, *i, u),
        (Term::Add(a, b), Term::Add(p, q)) => {
            is_replaced(fill, terms, d, a.get(), p.get())
                && is_replaced(fill, terms, d, b.get(), q.get())
        }
        (Term::Sub(a, b), Term::Sub(p, q)) => {
            is_replaced(fill, terms, d, a.get(), p.get())
                && is_replaced(fill, terms, d, b.get(), q.get())
        }
        (Term::Neg(a), Term::Neg(p)) => is_replaced(fill, terms, d, a.get(), p.get()),
        (Term::Scale(x, a), Term::Scale(y, p)) => {
            *x == *y && is_replaced(fill, terms, d, a.get(), p.get())
        }
        _ => false,
    }
}

/// Whether the terms `us` are those of `ts`, each replaced.
fn are_replaced(fill: Fill, terms: &[Term], d: u32, ts: &[Term], us: &[Term]) -> bool
    ensures { IsTrue result ↔ (us.now ≡ map (replaced (filled fill terms.now) d) ts.now) }
{
    if ts.len() != us.len() {
        return false;
    }
    for (i, t) in ts.iter().enumerate() {
        if !is_replaced(fill, terms, d, t, &us[i]) {
            return false;
        }
    }
    true
}

/// Whether `q` is the pure formula, which stands under `d` binders, with each term replaced.
#[tactic(auto, using(crate::proofs::Compares::pure_compares))]
fn is_pure_replaced(fill: Fill, terms: &[Term], d: u32, p: &Pure, q: &Pure) -> bool
    ensures { IsTrue result ↔ (q.now ≡ changed_pure (replaced (filled fill terms.now) d) p.now) }
{
    match (p, q) {
        (Pure::True, Pure::True) => true,
        (Pure::False, Pure::False) => true,
        (Pure::Eq(s, t), Pure::Eq(x, y)) => {
            is_replaced(fill, terms, d, s, x) && is_replaced(fill, terms, d, t, y)
        }
        (Pure::Le(s, t), Pure::Le(x, y)) => {
            is_replaced(fill, terms, d, s, x) && is_replaced(fill, terms, d, t, y)
        }
        (Pure::Lt(s, t), Pure::Lt(x, y)) => {
            is_replaced(fill, terms, d, s, x) && is_replaced(fill, terms, d, t, y)
        }
        (Pure::And(a, b), Pure::And(x, y)) => {
            is_pure_replaced(fill, terms, d, a.get(), x.get())
                && is_pure_replaced(fill, terms, d, b.get(), y.get())
        }
        (Pure::Or(a, b), Pure::Or(x, y)) => {
            is_pure_replaced(fill, terms, d, a.get(), x.get())
                && is_pure_replaced(fill, terms, d, b.get(), y.get())
        }
        (Pure::Not(a), Pure::Not(x)) => is_pure_replaced(fill, terms, d, a.get(), x.get()),
        _ => false,
    }
}

/// Whether `g` is the formula, which stands under `d` binders, with each term replaced.
#[tactic(auto, using(crate::proofs::Compares::compares))]
pub fn is_formula_replaced(fill: Fill, terms: &[Term], d: u32, f: &Formula, g: &Formula) -> bool
    requires { d + depth_of f.now ≤ BOUND }
    ensures { IsTrue result ↔ (g.now ≡ changed (replaced (filled fill terms.now)) d f.now) }
{
    match (f, g) {
        (Formula::Pure(p), Formula::Pure(q)) => is_pure_replaced(fill, terms, d, p, q),
        (Formula::Sep(a, b), Formula::Sep(x, y))
        | (Formula::Wand(a, b), Formula::Wand(x, y))
        | (Formula::And(a, b), Formula::And(x, y))
        | (Formula::Or(a, b), Formula::Or(x, y))
        | (Formula::Imp(a, b), Formula::Imp(x, y)) => {
            is_formula_replaced(fill, terms, d, a.get(), x.get())
                && is_formula_replaced(fill, terms, d, b.get(), y.get())
        }
        (Formula::All(a), Formula::All(x)) | (Formula::Ex(a), Formula::Ex(x)) => {
            is_formula_replaced(fill, terms, d + 1, a.get(), x.get())
        }
        (Formula::Later(a), Formula::Later(x))
        | (Formula::Pers(a), Formula::Pers(x))
        | (Formula::Upd(a), Formula::Upd(x)) => {
            is_formula_replaced(fill, terms, d, a.get(), x.get())
        }
        (
            Formula::Pts { loc, units, val },
            Formula::Pts {
                loc: other_loc,
                units: other_units,
                val: other_val,
            },
        ) => {
            is_replaced(fill, terms, d, loc, other_loc)
                && *units == *other_units
                && is_replaced(fill, terms, d, val, other_val)
        }
        (
            Formula::Call { pred, args },
            Formula::Call {
                pred: other_pred,
                args: other_args,
            },
        ) => {
            *pred == *other_pred
                && are_replaced(fill, terms, d, args.as_slice(), other_args.as_slice())
        }
        _ => false,
    }
}

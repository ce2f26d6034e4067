//! Whether entailments have the formulas of the rows whose formulas are computed.

ghost use Rattle.std.specs.Prelude.{◌≡◌, ◌↔◌, ◌+◌, ◌≤◌, ◌<◌, IsTrue, MatchOption, length};
ghost use Rattle.pm_logic.specs.Scope.{ScopedIn, CallsFit};
ghost use Rattle.pm_logic.specs.Size.{depth_of};
ghost use Rattle.pm_rules.specs.Equations.{IsInst, IsAllE, IsExI, IsNoEquation, IsRewrite, IsPtsSplit, IsPtsAgree, IsPtsOver, IsPtsWrite, IsRaised, IsFresh, IsPtsNew, IsFold, IsOverfull, IsLaterTimeless};
ghost use Rattle.pm_rules.specs.Rules.{HasFitBodies};

use crate::rules::Entail;
use pm_logic::{
    BOUND, Formula, List, Preds, Pure, Term, UNIT, is_opened, is_subst, same_term, timeless,
};

/// Whether the conclusion is the premise with the terms for its variables.
pub fn is_inst(sigma: &List<Term>, p: &Entail, e: &Entail) -> bool
    requires left { ScopedIn (length sigma.now) p.now.left }
    requires right { ScopedIn (length sigma.now) p.now.right }
    requires left_size { length sigma.now + depth_of p.now.left ≤ BOUND }
    requires right_size { length sigma.now + depth_of p.now.right ≤ BOUND }
    ensures { IsTrue result ↔ IsInst sigma.now p.now.left p.now.right e.now.left e.now.right }
{
    is_subst(&p.left, sigma, &e.left) && is_subst(&p.right, sigma, &e.right)
}

/// Whether `right` is the body of the universal `left` at the term.
#[tactic(auto, using(crate::proofs::Computed::depth_all, crate::proofs::Computed::specialized))]
pub fn is_all_e(t: &Term, left: &Formula, right: &Formula) -> bool
    requires { depth_of left.now ≤ BOUND }
    ensures { IsTrue result ↔ IsAllE t.now left.now right.now }
{
    match left {
        Formula::All(b) => is_opened(b.get(), t, right),
        _ => false,
    }
}

/// Whether `left` is the body of the existential `right` at the term.
#[tactic(auto, using(crate::proofs::Computed::depth_ex, crate::proofs::Computed::witnessed))]
pub fn is_ex_i(t: &Term, left: &Formula, right: &Formula) -> bool
    requires { depth_of right.now ≤ BOUND }
    ensures { IsTrue result ↔ IsExI t.now left.now right.now }
{
    match right {
        Formula::Ex(b) => is_opened(b.get(), t, left),
        _ => false,
    }
}

/// The sides of the equation that `f` is.
fn equation<'a>(f: &'a Formula) -> Option<(&'a Term, &'a Term)>
    ensures { MatchOption result (IsNoEquation f.now) (λ x. f.now ≡ Formula.Pure (Pure.Eq x.0.now x.1.now)) }
{
    match f {
        Formula::Pure(Pure::Eq(s, t)) => Some((s, t)),
        _ => None,
    }
}

/// Whether `left` is an equation and the body at its first side, and `right` the body at its second side.
pub fn is_rewrite(b: &Formula, left: &Formula, right: &Formula) -> bool
    requires { depth_of b.now ≤ BOUND }
    ensures { IsTrue result ↔ IsRewrite b.now left.now right.now }
{
    match left {
        Formula::And(fact, from) => match equation(fact.get()) {
            Some((s, t)) => is_opened(b, s, from.get()) && is_opened(b, t, right),
            None => false,
        },
        _ => false,
    }
}

/// Whether the units of the one points-to are those of the two others together, at one location and with one value.
pub fn is_pts_split(whole: &Formula, parts: &Formula) -> bool
    ensures { IsTrue result ↔ IsPtsSplit whole.now parts.now }
{
    match (whole, parts) {
        (
            Formula::Pts {
                loc: l,
                units: u,
                val: v,
            },
            Formula::Sep(f, g),
        ) => match (f.get(), g.get()) {
            (
                Formula::Pts {
                    loc: m,
                    units: a,
                    val: w,
                },
                Formula::Pts {
                    loc: n,
                    units: b,
                    val: x,
                },
            ) => {
                same_term(l, m)
                    && same_term(l, n)
                    && same_term(v, w)
                    && same_term(v, x)
                    && u64::from(*u) == u64::from(*a) + u64::from(*b)
            }
            _ => false,
        },
        _ => false,
    }
}

/// Whether `right` equates the values of two points-to at one location.
pub fn is_pts_agree(left: &Formula, right: &Formula) -> bool
    ensures { IsTrue result ↔ IsPtsAgree left.now right.now }
{
    match (left, right) {
        (Formula::Sep(f, g), Formula::Pure(Pure::Eq(v, w))) => match (f.get(), g.get()) {
            (Formula::Pts { loc: l, val: x, .. }, Formula::Pts { loc: m, val: y, .. }) => {
                same_term(l, m) && same_term(x, v) && same_term(y, w)
            }
            _ => false,
        },
        _ => false,
    }
}

/// Whether `left` has two points-to at one location, and `right` is falsehood.
pub fn is_pts_over(left: &Formula, right: &Formula) -> bool
    ensures { IsTrue result ↔ IsPtsOver left.now right.now }
{
    match (left, right) {
        (Formula::Sep(f, g), Formula::Pure(Pure::False)) => match (f.get(), g.get()) {
            (Formula::Pts { loc: l, .. }, Formula::Pts { loc: m, .. }) => same_term(l, m),
            _ => false,
        },
        _ => false,
    }
}

/// Whether `left` is a whole points-to, and `right` the same with another value after an update.
pub fn is_pts_write(left: &Formula, right: &Formula) -> bool
    ensures { IsTrue result ↔ IsPtsWrite left.now right.now }
{
    match (left, right) {
        (
            Formula::Pts {
                loc: l,
                units: u,
                ..
            },
            Formula::Upd(f),
        ) => match f.get() {
            Formula::Pts {
                loc: m,
                units: w,
                ..
            } => same_term(l, m) && *u == UNIT && *w == UNIT,
            _ => false,
        },
        _ => false,
    }
}

/// Whether the term is another one with each index one higher.
#[tactic(auto, using(crate::proofs::Raised::raises))]
fn is_raised(t: &Term) -> bool
    ensures { IsTrue result ↔ IsRaised t.now }
{
    match t {
        Term::Lit(_) => true,
        Term::Var(i) => *i > 0,
        Term::Add(a, b) | Term::Sub(a, b) => is_raised(a.get()) && is_raised(b.get()),
        Term::Neg(a) | Term::Scale(_, a) => is_raised(a.get()),
    }
}

/// Whether `f` is a whole points-to at index 0, with a value that does not have it.
#[tactic(auto, using(crate::proofs::Raised::fresh_from, crate::proofs::Raised::fresh_to))]
fn is_fresh(f: &Formula) -> bool
    ensures { IsTrue result ↔ IsFresh f.now }
{
    match f {
        Formula::Pts { loc, units, val } => {
            same_term(loc, &Term::Var(0)) && *units == UNIT && is_raised(val)
        }
        _ => false,
    }
}

/// Whether `right` is a new whole points-to after an update.
pub fn is_pts_new(right: &Formula) -> bool
    ensures { IsTrue result ↔ IsPtsNew right.now }
{
    match right {
        Formula::Upd(f) => match f.get() {
            Formula::Ex(g) => is_fresh(g.get()),
            _ => false,
        },
        _ => false,
    }
}

/// Whether `body` is the body of the predicate that `call` names, with the call's arguments.
#[tactic(auto, using(crate::proofs::Computed::body_scoped, crate::proofs::Computed::body_within, crate::proofs::Computed::fit_call, crate::proofs::Computed::no_call, crate::proofs::Computed::folded))]
pub fn is_fold(preds: &Preds, body: &Formula, call: &Formula) -> bool
    requires bodies { HasFitBodies preds.now }
    requires call { CallsFit preds.now.list call.now }
    ensures { IsTrue result ↔ IsFold preds.now body.now call.now }
{
    match call {
        Formula::Call { pred, args } => match preds.list.get(*pred as usize) {
            Some(q) => is_subst(&q.body, args, body),
            None => false,
        },
        _ => false,
    }
}

/// Whether `left` has two points-to of more than a whole together.
pub fn is_overfull(left: &Formula) -> bool
    ensures { IsTrue result ↔ IsOverfull left.now }
{
    match left {
        Formula::Sep(f, g) => match (f.get(), g.get()) {
            (Formula::Pts { units: a, .. }, Formula::Pts { units: b, .. }) => {
                u64::from(*a) + u64::from(*b) > u64::from(UNIT)
            }
            _ => false,
        },
        _ => false,
    }
}

/// Whether `left` is a later of a timeless formula.
pub fn is_later_timeless(left: &Formula) -> bool
    ensures { IsTrue result ↔ IsLaterTimeless left.now }
{
    match left {
        Formula::Later(f) => timeless(f.get()),
        _ => false,
    }
}

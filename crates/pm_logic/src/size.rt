//! Depths and numbers of nodes, which stop at the last value of their types.

ghost use Rattle.std.specs.Prelude.{◌≡◌, ◌+◌, suc, min, max};
ghost use Rattle.pm_logic.specs.Size as size;

use crate::formula::{Formula, Pure, Term};

/// How deep `f` is: every constructor of formula, pure formula and term is one level, and a leaf has depth 1. What
/// is deeper than `u32::MAX` counts as that.
#[tactic(auto, using(crate::proofs::Sizes::formula_depths))]
pub fn depth(f: &Formula) -> u32
    ensures { result ≡ min (size.depth_of f.now) u32.MAX }
{
    match f {
        Formula::Pure(p) => pure_depth(p).saturating_add(1),
        Formula::Sep(a, b)
        | Formula::Wand(a, b)
        | Formula::And(a, b)
        | Formula::Or(a, b)
        | Formula::Imp(a, b) => above(depth(a.get()), depth(b.get())),
        Formula::All(a) | Formula::Ex(a) => depth(a.get()).saturating_add(1),
        Formula::Later(a) | Formula::Pers(a) | Formula::Upd(a) => depth(a.get()).saturating_add(1),
        Formula::Pts { loc, val, .. } => above(term_depth(loc), term_depth(val)),
        Formula::Call { args, .. } => terms_depth(args.as_slice()).saturating_add(1),
    }
}

/// One level above two parts of these depths.
fn above(a: u32, b: u32) -> u32
    ensures { result ≡ min (suc (max a b)) u32.MAX }
{
    a.max(b).saturating_add(1)
}

/// How deep `t` is: every constructor is one level. What is deeper than `u32::MAX` counts as that.
#[tactic(auto, using(crate::proofs::Sizes::term_depths))]
pub fn term_depth(t: &Term) -> u32
    ensures { result ≡ min (size.term_depth t.now) u32.MAX }
{
    match t {
        Term::Lit(_) | Term::Var(_) => 1,
        Term::Add(a, b) | Term::Sub(a, b) => above(term_depth(a.get()), term_depth(b.get())),
        Term::Neg(a) | Term::Scale(_, a) => term_depth(a.get()).saturating_add(1),
    }
}

#[tactic(auto, using(crate::proofs::Sizes::list_depths))]
fn terms_depth(ts: &[Term]) -> u32
    ensures { result ≡ min (size.terms_depth ts.now) u32.MAX }
{
    let mut deepest = 0;
    for t in ts {
        deepest = term_depth(t).max(deepest);
    }
    deepest
}

/// How deep `p` is: every constructor of pure formula and term is one level. What is deeper than `u32::MAX` counts as
/// that.
#[tactic(auto, using(crate::proofs::Sizes::pure_depths))]
pub fn pure_depth(p: &Pure) -> u32
    ensures { result ≡ min (size.pure_depth p.now) u32.MAX }
{
    match p {
        Pure::True | Pure::False => 1,
        Pure::Eq(s, t) | Pure::Le(s, t) | Pure::Lt(s, t) => above(term_depth(s), term_depth(t)),
        Pure::And(a, b) | Pure::Or(a, b) => above(pure_depth(a.get()), pure_depth(b.get())),
        Pure::Not(a) => pure_depth(a.get()).saturating_add(1),
    }
}

/// How many nodes `f` has: every constructor of formula, pure formula and term is one. What has more than
/// `u64::MAX` counts as that.
#[tactic(auto, using(crate::proofs::Sizes::formula_counts))]
pub fn nodes(f: &Formula) -> u64
    ensures { result ≡ min (size.nodes_of f.now) u64.MAX }
{
    match f {
        Formula::Pure(p) => pure_nodes(p).saturating_add(1),
        Formula::Sep(a, b)
        | Formula::Wand(a, b)
        | Formula::And(a, b)
        | Formula::Or(a, b)
        | Formula::Imp(a, b) => node_over(nodes(a.get()), nodes(b.get())),
        Formula::All(a) | Formula::Ex(a) => nodes(a.get()).saturating_add(1),
        Formula::Later(a) | Formula::Pers(a) | Formula::Upd(a) => nodes(a.get()).saturating_add(1),
        Formula::Pts { loc, val, .. } => node_over(term_nodes(loc), term_nodes(val)),
        Formula::Call { args, .. } => terms_nodes(args.as_slice()).saturating_add(1),
    }
}

/// The nodes of two parts and one over them.
fn node_over(a: u64, b: u64) -> u64
    ensures { result ≡ min (suc (a + b)) u64.MAX }
{
    a.saturating_add(b).saturating_add(1)
}

#[tactic(auto, using(crate::proofs::Sizes::term_counts))]
fn term_nodes(t: &Term) -> u64
    ensures { result ≡ min (size.term_nodes t.now) u64.MAX }
{
    match t {
        Term::Lit(_) | Term::Var(_) => 1,
        Term::Add(a, b) | Term::Sub(a, b) => node_over(term_nodes(a.get()), term_nodes(b.get())),
        Term::Neg(a) | Term::Scale(_, a) => term_nodes(a.get()).saturating_add(1),
    }
}

#[tactic(auto, using(crate::proofs::Sizes::list_counts))]
fn terms_nodes(ts: &[Term]) -> u64
    ensures { result ≡ min (size.terms_nodes ts.now) u64.MAX }
{
    let mut count: u64 = 0;
    for t in ts {
        count = count.saturating_add(term_nodes(t));
    }
    count
}

#[tactic(auto, using(crate::proofs::Sizes::pure_counts))]
fn pure_nodes(p: &Pure) -> u64
    ensures { result ≡ min (size.pure_nodes p.now) u64.MAX }
{
    match p {
        Pure::True | Pure::False => 1,
        Pure::Eq(s, t) | Pure::Le(s, t) | Pure::Lt(s, t) => node_over(term_nodes(s), term_nodes(t)),
        Pure::And(a, b) | Pure::Or(a, b) => node_over(pure_nodes(a.get()), pure_nodes(b.get())),
        Pure::Not(a) => pure_nodes(a.get()).saturating_add(1),
    }
}

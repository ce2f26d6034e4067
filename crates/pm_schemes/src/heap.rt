//! Proofs by the rules of points-to.

ghost use Rattle.std.specs.Prelude.{◌≡◌, ◌+◌, ◌<◌, ◌≤◌, [], IfOk};
ghost use Rattle.pm_logic.specs.declared.formula.Formula.TheVariants as formula;
ghost use Rattle.pm_logic.specs.declared.formula.Formula.TheViews as view;
ghost use Rattle.pm_logic.specs.declared.formula.Pure.TheVariants as pure;
ghost use Rattle.pm_logic.specs.declared.formula.TheConstants.{UNIT};
ghost use Rattle.pm_proof.specs.Trees.{entail, side_depth};
ghost use Rattle.pm_proof.specs.Known.{Proves, Every};

use pm_logic::{Formula, Memory, Pure, Term, UNIT, copy_term, sep, upd};
use pm_proof::{Proof, by_rule};
use pm_rules::{Entail, Rule};
use std::alloc::Global;

fn pts(alloc: Global, l: &Term, units: u32, v: &Term) -> Result<Formula, Memory>
    ensures { IfOk result (λ f. f ≡ formula.Pts l.now units v.now) }
{
    let loc = copy_term(alloc, l)?;
    let val = copy_term(alloc, v)?;
    Ok(Formula::Pts { loc, units, val })
}

fn two_pts(alloc: Global, l: &Term, a: u32, v: &Term, b: u32, w: &Term) -> Result<Formula, Memory>
    ensures { IfOk result (λ f. f ≡ view.Sep (formula.Pts l.now a v.now) (formula.Pts l.now b w.now)) }
{
    let first = pts(alloc, l, a, v)?;
    let second = pts(alloc, l, b, w)?;
    sep(alloc, first, second)
}

/// `l ↦{a+b} v ⊢ l ↦{a} v ∗ l ↦{b} v`
#[tactic(auto, using(crate::proofs::Heaps::units_split))]
pub fn split_units(
    alloc: Global,
    vars: u32,
    l: &Term,
    a: u32,
    b: u32,
    v: &Term,
) -> Result<Proof, Memory>
    requires { a + b ≤ UNIT }
    ensures { IfOk result (λ t. Proves Every (entail vars (formula.Pts l.now (a + b) v.now) (view.Sep (formula.Pts l.now a v.now) (formula.Pts l.now b v.now))) [] 1 (side_depth (entail vars (formula.Pts l.now (a + b) v.now) (view.Sep (formula.Pts l.now a v.now) (formula.Pts l.now b v.now)))) vars t) }
{
    let left = pts(alloc, l, a + b, v)?;
    let right = two_pts(alloc, l, a, v, b, v)?;
    let conclusion = Entail { vars, left, right };
    by_rule(alloc, Rule::PtsSplit, None, None, conclusion)
}

/// `l ↦{a} v ∗ l ↦{b} v ⊢ l ↦{a+b} v`
#[tactic(auto, using(crate::proofs::Heaps::units_joined))]
pub fn join_units(
    alloc: Global,
    vars: u32,
    l: &Term,
    a: u32,
    b: u32,
    v: &Term,
) -> Result<Proof, Memory>
    requires { a + b ≤ UNIT }
    ensures { IfOk result (λ t. Proves Every (entail vars (view.Sep (formula.Pts l.now a v.now) (formula.Pts l.now b v.now)) (formula.Pts l.now (a + b) v.now)) [] 1 (side_depth (entail vars (view.Sep (formula.Pts l.now a v.now) (formula.Pts l.now b v.now)) (formula.Pts l.now (a + b) v.now))) vars t) }
{
    let left = two_pts(alloc, l, a, v, b, v)?;
    let right = pts(alloc, l, a + b, v)?;
    let conclusion = Entail { vars, left, right };
    by_rule(alloc, Rule::PtsJoin, None, None, conclusion)
}

/// `l ↦{a} v ∗ l ↦{b} w ⊢ ⌜v = w⌝`
#[tactic(auto, using(crate::proofs::Heaps::agreed))]
pub fn agree(
    alloc: Global,
    vars: u32,
    l: &Term,
    a: u32,
    v: &Term,
    b: u32,
    w: &Term,
) -> Result<Proof, Memory>
    ensures { IfOk result (λ t. Proves Every (entail vars (view.Sep (formula.Pts l.now a v.now) (formula.Pts l.now b w.now)) (formula.Pure (pure.Eq v.now w.now))) [] 1 (side_depth (entail vars (view.Sep (formula.Pts l.now a v.now) (formula.Pts l.now b w.now)) (formula.Pure (pure.Eq v.now w.now)))) vars t) }
{
    let left = two_pts(alloc, l, a, v, b, w)?;
    let v = copy_term(alloc, v)?;
    let w = copy_term(alloc, w)?;
    let right = Formula::Pure(Pure::Eq(v, w));
    let conclusion = Entail { vars, left, right };
    by_rule(alloc, Rule::PtsAgree, None, None, conclusion)
}

/// `l ↦{a} v ∗ l ↦{b} w ⊢ ⌜False⌝`, where the units are together more than a whole
#[tactic(auto, using(crate::proofs::Heaps::overfull))]
pub fn overfull(
    alloc: Global,
    vars: u32,
    l: &Term,
    a: u32,
    v: &Term,
    b: u32,
    w: &Term,
) -> Result<Proof, Memory>
    requires { UNIT < a + b }
    ensures { IfOk result (λ t. Proves Every (entail vars (view.Sep (formula.Pts l.now a v.now) (formula.Pts l.now b w.now)) (formula.Pure pure.False)) [] 1 (side_depth (entail vars (view.Sep (formula.Pts l.now a v.now) (formula.Pts l.now b w.now)) (formula.Pure pure.False))) vars t) }
{
    let left = two_pts(alloc, l, a, v, b, w)?;
    let right = Formula::Pure(Pure::False);
    let conclusion = Entail { vars, left, right };
    by_rule(alloc, Rule::PtsOver, None, None, conclusion)
}

/// `l ↦ v ⊢ |==> l ↦ w`, both whole
#[tactic(auto, using(crate::proofs::Heaps::written))]
pub fn write(alloc: Global, vars: u32, l: &Term, v: &Term, w: &Term) -> Result<Proof, Memory>
    ensures { IfOk result (λ t. Proves Every (entail vars (formula.Pts l.now UNIT v.now) (view.Upd (formula.Pts l.now UNIT w.now))) [] 1 (side_depth (entail vars (formula.Pts l.now UNIT v.now) (view.Upd (formula.Pts l.now UNIT w.now)))) vars t) }
{
    let left = pts(alloc, l, UNIT, v)?;
    let right = upd(alloc, pts(alloc, l, UNIT, w)?)?;
    let conclusion = Entail { vars, left, right };
    by_rule(alloc, Rule::PtsWrite, None, None, conclusion)
}

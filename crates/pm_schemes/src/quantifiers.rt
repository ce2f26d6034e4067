//! Proofs by the rules of quantifiers, whose formulas are computed.

ghost use Rattle.std.specs.Prelude.{◌≡◌, ◌+◌, ◌<◌, ◌≤◌, [], ◌∷◌, max, length, IfOk};
ghost use Rattle.std.specs.List.{AllByRecursion};
ghost use Rattle.pm_logic.specs.declared.formula.Formula.TheViews as view;
ghost use Rattle.pm_logic.specs.declared.formula.TheConstants.{BOUND};
ghost use Rattle.pm_logic.specs.declared.limits.TheConstants.{MAX_LINE_TERMS};
ghost use Rattle.pm_logic.specs.Bounds.{IsBounded};
ghost use Rattle.pm_logic.specs.Scope.{ScopedIn};
ghost use Rattle.pm_logic.specs.Size.{depth_of};
ghost use Rattle.pm_logic.specs.Substitution.{shift_of, opened_of, subst_of};
ghost use Rattle.pm_proof.specs.Trees.{entail, side_depth};
ghost use Rattle.pm_proof.specs.Valid.{TermFits};
ghost use Rattle.pm_proof.specs.Known.{Proves, Every};

use pm_logic::{Formula, List, Memory, Term, all, copy, copy_term, ex, opened, shift, subst};
use pm_proof::{Proof, by_rule, hole};
use pm_rules::{Entail, Rule};
use std::alloc::Global;

/// From `P↑ ⊢ B` in one variable more, which is its hole: `P ⊢ ∀ B`.
#[tactic(auto, using(crate::proofs::Binders::generalized))]
pub fn generalize(alloc: Global, vars: u32, p: &Formula, b: &Formula) -> Result<Proof, Memory>
    requires vars { vars < BOUND }
    requires bounded { IsBounded p.now }
    ensures { IfOk result (λ t. Proves Every (entail vars p.now (view.All b.now)) (entail (vars + 1) (shift_of p.now) b.now ∷ []) 1 (max (side_depth (entail vars p.now (view.All b.now))) (side_depth (entail (vars + 1) (shift_of p.now) b.now))) (vars + 1) t) }
{
    let premise = Entail {
        vars: vars + 1,
        left: shift(alloc, p)?,
        right: copy(alloc, b)?,
    };
    let conclusion = Entail {
        vars,
        left: copy(alloc, p)?,
        right: all(alloc, copy(alloc, b)?)?,
    };
    let premise = hole(alloc, premise)?;
    by_rule(alloc, Rule::AllI, Some(premise), None, conclusion)
}

/// From `B ⊢ Q↑` in one variable more, which is its hole: `∃ B ⊢ Q`.
#[tactic(auto, using(crate::proofs::Binders::eliminated))]
pub fn eliminate(alloc: Global, vars: u32, b: &Formula, q: &Formula) -> Result<Proof, Memory>
    requires vars { vars < BOUND }
    requires bounded { IsBounded q.now }
    ensures { IfOk result (λ t. Proves Every (entail vars (view.Ex b.now) q.now) (entail (vars + 1) b.now (shift_of q.now) ∷ []) 1 (max (side_depth (entail vars (view.Ex b.now) q.now)) (side_depth (entail (vars + 1) b.now (shift_of q.now)))) (vars + 1) t) }
{
    let premise = Entail {
        vars: vars + 1,
        left: copy(alloc, b)?,
        right: shift(alloc, q)?,
    };
    let conclusion = Entail {
        vars,
        left: ex(alloc, copy(alloc, b)?)?,
        right: copy(alloc, q)?,
    };
    let premise = hole(alloc, premise)?;
    by_rule(alloc, Rule::ExE, Some(premise), None, conclusion)
}

/// `∀ B ⊢ B[t]`, where a line of a derivation has room for the term
#[tactic(auto, using(crate::proofs::Rooms::term_past))]
pub fn specialize(alloc: Global, vars: u32, b: &Formula, t: &Term) -> Result<Proof, Memory>
    requires vars { vars ≤ BOUND }
    requires body { IsBounded b.now }
    requires term { TermFits vars t.now }
    ensures { IfOk result (λ p. Proves Every (entail vars (view.All b.now) (opened_of b.now t.now)) [] 1 (side_depth (entail vars (view.All b.now) (opened_of b.now t.now))) vars p) }
{
    let left = all(alloc, copy(alloc, b)?)?;
    let right = opened(alloc, b, t)?;
    let t = copy_term(alloc, t)?;
    let conclusion = Entail { vars, left, right };
    let proof = by_rule(alloc, Rule::AllE { t }, None, None, conclusion)?;
    Ok(proof)
}

/// `B[t] ⊢ ∃ B`, as for `specialize`
#[tactic(auto, using(crate::proofs::Rooms::term_past))]
pub fn witness(alloc: Global, vars: u32, b: &Formula, t: &Term) -> Result<Proof, Memory>
    requires vars { vars ≤ BOUND }
    requires body { IsBounded b.now }
    requires term { TermFits vars t.now }
    ensures { IfOk result (λ p. Proves Every (entail vars (opened_of b.now t.now) (view.Ex b.now)) [] 1 (side_depth (entail vars (opened_of b.now t.now) (view.Ex b.now))) vars p) }
{
    let left = opened(alloc, b, t)?;
    let right = ex(alloc, copy(alloc, b)?)?;
    let t = copy_term(alloc, t)?;
    let conclusion = Entail { vars, left, right };
    let proof = by_rule(alloc, Rule::ExI { t }, None, None, conclusion)?;
    Ok(proof)
}

/// From `P ⊢ Q` in as many variables as there are terms, which is its hole: `P[σ] ⊢ Q[σ]`. A line of a derivation has room
/// for the terms.
#[tactic(auto, using(crate::proofs::Binders::instantiated, crate::proofs::Rooms::terms_past))]
pub fn instantiate(
    alloc: Global,
    vars: u32,
    sigma: List<Term>,
    premise: Entail,
) -> Result<Proof, Memory>
    requires each { premise.vars ≡ length sigma }
    requires left { ScopedIn (length sigma) premise.left }
    requires right { ScopedIn (length sigma) premise.right }
    requires left_size { length sigma + depth_of premise.left ≤ BOUND }
    requires right_size { length sigma + depth_of premise.right ≤ BOUND }
    requires vars { vars ≤ BOUND }
    requires few { length sigma ≤ MAX_LINE_TERMS }
    requires terms { AllByRecursion (TermFits vars) sigma }
    ensures { IfOk result (λ t. Proves Every (entail vars (subst_of premise.left sigma) (subst_of premise.right sigma)) (premise ∷ []) 1 (max (side_depth (entail vars (subst_of premise.left sigma) (subst_of premise.right sigma))) (side_depth premise)) (max vars premise.vars) t) }
{
    let conclusion = Entail {
        vars,
        left: subst(alloc, &premise.left, &sigma)?,
        right: subst(alloc, &premise.right, &sigma)?,
    };
    let premise = hole(alloc, premise)?;
    by_rule(alloc, Rule::Inst { sigma }, Some(premise), None, conclusion)
}

//! Proofs by the rules of pure facts, and by that of timeless formulas.

ghost use Rattle.std.specs.Prelude.{◌≡◌, ◌≤◌, [], length, IfOk};
ghost use Rattle.pm_logic.specs.declared.formula.Formula.TheVariants as formula;
ghost use Rattle.pm_logic.specs.declared.formula.Formula.TheViews as view;
ghost use Rattle.pm_logic.specs.declared.formula.Pure.TheVariants as pure;
ghost use Rattle.pm_logic.specs.Bounds.{IsBounded, past_indices};
ghost use Rattle.pm_logic.specs.Classes.{IsTimeless};
ghost use Rattle.pm_logic.specs.declared.limits.TheConstants.{MAX_LINE_LEVELS};
ghost use Rattle.pm_logic.specs.Scope.{TermScoped};
ghost use Rattle.pm_logic.specs.Size.{depth_of};
ghost use Rattle.pm_logic.specs.Substitution.{opened_of};
ghost use Rattle.pm_rules.specs.Equations.{IsFacts};
ghost use Rattle.pm_rules.specs.Linear.{HasFactors};
ghost use Rattle.pm_proof.specs.Trees.{entail, side_depth};
ghost use Rattle.pm_proof.specs.Known.{Proves, Every};

use pm_logic::{
    Formula, List, Memory, Pure, Term, and, copy, copy_pure, copy_term, later, opened, or,
};
use pm_proof::{Proof, by_rule};
use pm_rules::{Entail, Rule};
use std::alloc::Global;

/// `⌜facts⌝ ⊢ ⌜goal⌝`, where the factors of the negated goal and of each fact show it, which are at most those of a line of a
/// derivation; `second` is empty but for an equation, which takes a second list of factors.
pub fn linear(
    alloc: Global,
    vars: u32,
    first: List<i64>,
    second: List<i64>,
    facts: &Pure,
    goal: &Pure,
) -> Result<Proof, Memory>
    requires facts { IsFacts facts.now }
    requires few { length first ≤ 66 }
    requires shown { HasFactors first second vars (formula.Pure facts.now) (formula.Pure goal.now) }
    ensures { IfOk result (λ p. Proves Every (entail vars (formula.Pure facts.now) (formula.Pure goal.now)) [] 1 (side_depth (entail vars (formula.Pure facts.now) (formula.Pure goal.now))) vars p) }
{
    let left = Formula::Pure(copy_pure(alloc, facts)?);
    let right = Formula::Pure(copy_pure(alloc, goal)?);
    let conclusion = Entail { vars, left, right };
    let proof = by_rule(
        alloc,
        Rule::Linear { first, second },
        None,
        None,
        conclusion,
    )?;
    Ok(proof)
}

/// `▷ P ⊢ ▷ ⌜False⌝ ∨ P`, where `P` is timeless
pub fn strip_timeless(alloc: Global, vars: u32, p: &Formula) -> Result<Proof, Memory>
    requires { IsTimeless p.now }
    ensures { IfOk result (λ t. Proves Every (entail vars (view.Later p.now) (view.Or (view.Later (formula.Pure pure.False)) p.now)) [] 1 (side_depth (entail vars (view.Later p.now) (view.Or (view.Later (formula.Pure pure.False)) p.now))) vars t) }
{
    let left = later(alloc, copy(alloc, p)?)?;
    let never = later(alloc, Formula::Pure(Pure::False))?;
    let right = or(alloc, never, copy(alloc, p)?)?;
    let conclusion = Entail { vars, left, right };
    let proof = by_rule(alloc, Rule::Timeless, None, None, conclusion)?;
    Ok(proof)
}

/// `⌜s = t⌝ ∧ B[s] ⊢ B[t]`, where the template B is at most as deep as a line of a derivation has room for
pub fn rewrite(
    alloc: Global,
    vars: u32,
    template: &Formula,
    s: &Term,
    t: &Term,
) -> Result<Proof, Memory>
    requires body { IsBounded template.now }
    requires levels { depth_of template.now ≤ MAX_LINE_LEVELS }
    requires old { TermScoped past_indices s.now }
    requires new { TermScoped past_indices t.now }
    ensures { IfOk result (λ p. Proves Every (entail vars (view.And (formula.Pure (pure.Eq s.now t.now)) (opened_of template.now s.now)) (opened_of template.now t.now)) [] 1 (side_depth (entail vars (view.And (formula.Pure (pure.Eq s.now t.now)) (opened_of template.now s.now)) (opened_of template.now t.now))) vars p) }
{
    let equal = Pure::Eq(copy_term(alloc, s)?, copy_term(alloc, t)?);
    let left = and(alloc, Formula::Pure(equal), opened(alloc, template, s)?)?;
    let right = opened(alloc, template, t)?;
    let template = copy(alloc, template)?;
    let conclusion = Entail { vars, left, right };
    let proof = by_rule(alloc, Rule::Rewrite { template }, None, None, conclusion)?;
    Ok(proof)
}

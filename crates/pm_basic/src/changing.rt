//! Contexts with terms in the place of indices.

ghost use Rattle.std.specs.Prelude.{◌≡◌, IfOk};
ghost use Rattle.std.specs.List.{AllByRecursion};
ghost use Rattle.pm_logic.specs.declared.formula.Formula.TheVariants.{Pure as Assert};
ghost use Rattle.pm_logic.specs.Substitution.{entries, in_pure, in_formula};
ghost use Rattle.pm_table.specs.Works as works;
ghost use Rattle.pm_action.specs.Naming.{HypsDiffer, FactsDiffer};
ghost use Rattle.pm_basic.specs.Replacements.{IsFillable};

use pm_goal::{Ctx, Fact, Facts, Hyp};
use pm_logic::{Formula, List, Memory, Name, Pure, Term, copy_name, copy_pure, subst};
use std::alloc::Global;

/// The pure formula with the terms in the place of its indices.
fn filled(alloc: Global, pure: &Pure, sigma: &List<Term>) -> Result<Pure, Memory>
    requires { IsFillable sigma.now (Assert pure.now) }
    ensures { IfOk result (λ p. p ≡ in_pure (entries sigma.now) pure.now) }
{
    let own = copy_pure(alloc, pure)?;
    let fact = Formula::Pure(own);
    let changed = subst(alloc, &fact, sigma)?;
    match &changed {
        Formula::Pure(p) => {
            let pure = copy_pure(alloc, p)?;
            Ok(pure)
        }
        _ => unreachable!(),
    }
}

fn fact_of(alloc: Global, name: &Name, pure: &Pure, sigma: &List<Term>) -> Result<Fact, Memory>
    requires { IsFillable sigma.now (Assert pure.now) }
    ensures { IfOk result (λ f. f ≡ works.fact name.now (in_pure (entries sigma.now) pure.now)) }
{
    let name = copy_name(alloc, name)?;
    let pure = filled(alloc, pure, sigma)?;
    Ok(Fact { name, pure })
}

/// The facts with the terms in the place of their indices.
pub fn each_fact(alloc: Global, facts: &Facts, sigma: &List<Term>) -> Result<Facts, Memory>
    requires fillable { AllByRecursion (λ f. IsFillable sigma.now (Assert f.pure)) facts.now }
    requires apart { FactsDiffer facts.now }
    ensures { IfOk result (λ fs. fs ≡ works.each_fact (in_pure (entries sigma.now)) facts.now) }
{
    let len = facts.len();
    let mut out = Facts::new(alloc);
    let mut next = 0;
    while next < len {
        let i = next;
        next += 1;
        if let Some(name) = facts.name(i) {
            if let Some(pure) = facts.pure(i) {
                out.push(fact_of(alloc, name, pure, sigma)?)?;
            }
        }
    }
    Ok(out)
}

fn hyp_of(alloc: Global, name: &Name, formula: &Formula, sigma: &List<Term>) -> Result<Hyp, Memory>
    requires { IsFillable sigma.now formula.now }
    ensures { IfOk result (λ h. h ≡ works.hyp name.now (in_formula (entries sigma.now) formula.now)) }
{
    let name = copy_name(alloc, name)?;
    let formula = subst(alloc, formula, sigma)?;
    Ok(Hyp { name, formula })
}

/// The hypotheses with the terms in the place of their indices.
pub fn each_hyp(alloc: Global, hyps: &Ctx, sigma: &List<Term>) -> Result<Ctx, Memory>
    requires fillable { AllByRecursion (λ h. IsFillable sigma.now h.formula) hyps.now }
    requires apart { HypsDiffer hyps.now }
    ensures { IfOk result (λ hs. hs ≡ works.each_hyp (in_formula (entries sigma.now)) hyps.now) }
{
    let len = hyps.len();
    let mut out = Ctx::new(alloc);
    let mut next = 0;
    while next < len {
        let i = next;
        next += 1;
        if let Some(name) = hyps.name(i) {
            if let Some(formula) = hyps.formula(i) {
                out.push(hyp_of(alloc, name, formula, sigma)?)?;
            }
        }
    }
    Ok(out)
}

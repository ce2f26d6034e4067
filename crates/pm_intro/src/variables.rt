//! Goals that gain a variable.

ghost use Rattle.std.specs.Prelude.{◌≡◌, ◌++◌, ◌∷◌, [], IfOk};
ghost use Rattle.std.specs.List.{AllByRecursion};
ghost use Rattle.pm_logic.specs.declared.formula.Formula.TheVariants.{Pure as Assert};
ghost use Rattle.pm_logic.specs.Bounds.{IsBounded};
ghost use Rattle.pm_logic.specs.Substitution.{shift_of};
ghost use Rattle.pm_table.specs.Occurrences.{shifted_pure};
ghost use Rattle.pm_table.specs.Works as works;
ghost use Rattle.pm_action.specs.Naming.{HypsDiffer, FactsDiffer};
ghost use Rattle.pm_intro.specs.Variables.{IsLiftable, lifted};

use pm_goal::{Ctx, Fact, Facts, Goal, Held, Hyp, Work};
use pm_logic::{Formula, List, Memory, Name, Pure, copy_name, copy_pure, shift};
use std::alloc::Global;

/// The pure formula with each index one higher.
fn shifted(alloc: Global, pure: &Pure) -> Result<Pure, Memory>
    requires { IsBounded (Assert pure.now) }
    ensures { IfOk result (λ p. p ≡ shifted_pure pure.now) }
{
    let own = copy_pure(alloc, pure)?;
    let fact = Formula::Pure(own);
    let moved = shift(alloc, &fact)?;
    match &moved {
        Formula::Pure(p) => {
            let pure = copy_pure(alloc, p)?;
            Ok(pure)
        }
        _ => unreachable!(),
    }
}

fn names_with(alloc: Global, vars: &[Name], name: &Name) -> Result<List<Name>, Memory>
    ensures { IfOk result (λ xs. xs ≡ vars.now ++ name.now ∷ []) }
{
    let mut out = List::new(alloc);
    for x in vars {
        out.push(copy_name(alloc, x)?)?;
    }
    out.push(copy_name(alloc, name)?)?;
    Ok(out)
}

fn fact_of(alloc: Global, name: &Name, pure: &Pure) -> Result<Fact, Memory>
    requires { IsBounded (Assert pure.now) }
    ensures { IfOk result (λ f. f ≡ works.fact name.now (shifted_pure pure.now)) }
{
    let name = copy_name(alloc, name)?;
    let pure = shifted(alloc, pure)?;
    Ok(Fact { name, pure })
}

fn each_fact(alloc: Global, facts: &Facts) -> Result<Facts, Memory>
    requires bounded { AllByRecursion (λ f. IsBounded (Assert f.pure)) facts.now }
    requires apart { FactsDiffer facts.now }
    ensures { IfOk result (λ fs. fs ≡ works.each_fact shifted_pure facts.now) }
{
    let len = facts.len();
    let mut out = Facts::new(alloc);
    let mut next = 0;
    while next < len {
        let i = next;
        next += 1;
        if let Some(name) = facts.name(i) {
            if let Some(pure) = facts.pure(i) {
                out.push(fact_of(alloc, name, pure)?)?;
            }
        }
    }
    Ok(out)
}

fn hyp_of(alloc: Global, name: &Name, formula: &Formula) -> Result<Hyp, Memory>
    requires { IsBounded formula.now }
    ensures { IfOk result (λ h. h ≡ works.hyp name.now (shift_of formula.now)) }
{
    let name = copy_name(alloc, name)?;
    let formula = shift(alloc, formula)?;
    Ok(Hyp { name, formula })
}

fn each_hyp(alloc: Global, hyps: &Ctx) -> Result<Ctx, Memory>
    requires bounded { AllByRecursion (λ h. IsBounded h.formula) hyps.now }
    requires apart { HypsDiffer hyps.now }
    ensures { IfOk result (λ hs. hs ≡ works.each_hyp shift_of hyps.now) }
{
    let len = hyps.len();
    let mut out = Ctx::new(alloc);
    let mut next = 0;
    while next < len {
        let i = next;
        next += 1;
        if let Some(name) = hyps.name(i) {
            if let Some(formula) = hyps.formula(i) {
                out.push(hyp_of(alloc, name, formula)?)?;
            }
        }
    }
    Ok(out)
}

fn each_held(alloc: Global, held: &[Held]) -> Result<List<Held>, Memory>
    requires { AllByRecursion (λ h. IsBounded h.formula) held.now }
    ensures { IfOk result (λ hs. hs ≡ works.each_held shift_of held.now) }
{
    let mut out = List::new(alloc);
    for h in held {
        let formula = shift(alloc, &h.formula)?;
        out.push(Held {
            kind: h.kind,
            formula,
        })?;
    }
    Ok(out)
}

/// The work with the newest variable, in whose presence each index is one higher, and another conclusion.
pub fn lift(alloc: Global, work: &Work, name: &Name, concl: Formula) -> Result<Work, Memory>
    requires { IsLiftable work.now }
    ensures { IfOk result (λ w. w ≡ lifted name.now concl work.now) }
{
    let old = &work.goal;
    let vars = names_with(alloc, old.vars.as_slice(), name)?;
    let pures = each_fact(alloc, &old.pures)?;
    let ints = each_hyp(alloc, &old.ints)?;
    let spats = each_hyp(alloc, &old.spats)?;
    let held = each_held(alloc, work.held.as_slice())?;
    let goal = Goal {
        vars,
        pures,
        ints,
        spats,
        concl,
    };
    Ok(Work { goal, held })
}

//! Hypotheses and facts that get other names.

ghost use Rattle.std.specs.Prelude.{◌≡◌, ◌++◌, ◌∷◌, [], None, true, IfOk, OnOk, map, position};
ghost use Rattle.std.specs.Str.{bytes_eq};
ghost use Rattle.pm_table.specs.Basic as table;
ghost use Rattle.pm_table.specs.Limits.{all_nodes, work_formulas, limited};
ghost use Rattle.pm_table.specs.Stepping.{NamesDiffer};
ghost use Rattle.pm_table.specs.Works as works;
ghost use Rattle.pm_action.specs.Acting.{Answers, IsHanded};
ghost use Rattle.pm_action.specs.Naming.{HypsDiffer, FactsDiffer};
ghost use Rattle.pm_basic.specs.Renamings.{NoHyp, NoFact, renamed_hyp, renamed_fact};

use crate::finding::is_named;
use crate::steps::at_rest;
use pm_action::{is_free, refuse, unmoved};
use pm_goal::{Ctx, Fact, Facts, Goal, Hyp, Row, StepFault, Work, copy_goal};
use pm_logic::{Formula, Memory, Name, Pure, copy, copy_name, copy_pure};
use pm_proof::Parts;
use pm_table::Place;
use std::alloc::Global;

/// The other name in the place of this one.
fn renamed(alloc: Global, old: &Name, new: &Name, name: &Name) -> Result<Name, Memory>
    ensures { IfOk result (λ n. n ≡ table.renamed old.now new.now name.now) }
{
    if old.bytes() == name.bytes() {
        copy_name(alloc, new)
    } else {
        copy_name(alloc, name)
    }
}

/// Adds a copy of the hypothesis by the name that it gets.
fn push_hyp(
    alloc: Global,
    old: &Name,
    new: &Name,
    name: &Name,
    formula: &Formula,
    out: &mut Ctx,
) -> Result<(), Memory>
    requires { position (λ g. bytes_eq (table.renamed old.now new.now name.now) g.name) out.now ≡ None }
    ensures { OnOk result (out.new ≡ out.old ++ renamed_hyp old.now new.now (works.hyp name.now formula.now) ∷ []) }
{
    let name = renamed(alloc, old, new, name)?;
    let formula = copy(alloc, formula)?;
    out.push(Hyp { name, formula })
}

/// The hypotheses, the one of the old name by the new one, which none has.
fn renamed_hyps(alloc: Global, old: &Name, new: &Name, hyps: &Ctx) -> Result<Ctx, Memory>
    requires apart { HypsDiffer hyps.now }
    requires free { NoHyp new.now hyps.now }
    ensures { IfOk result (λ hs. hs ≡ map (renamed_hyp old.now new.now) hyps.now) }
{
    let len = hyps.len();
    let mut out = Ctx::new(alloc);
    let mut next = 0;
    while next < len {
        let i = next;
        next += 1;
        if let Some(name) = hyps.name(i) {
            if let Some(formula) = hyps.formula(i) {
                push_hyp(alloc, old, new, name, formula, &mut out)?;
            }
        }
    }
    Ok(out)
}

/// Adds a copy of the fact by the name that it gets.
fn push_fact(
    alloc: Global,
    old: &Name,
    new: &Name,
    name: &Name,
    pure: &Pure,
    out: &mut Facts,
) -> Result<(), Memory>
    requires { position (λ f. bytes_eq (table.renamed old.now new.now name.now) f.name) out.now ≡ None }
    ensures { OnOk result (out.new ≡ out.old ++ renamed_fact old.now new.now (works.fact name.now pure.now) ∷ []) }
{
    let name = renamed(alloc, old, new, name)?;
    let pure = copy_pure(alloc, pure)?;
    out.push(Fact { name, pure })
}

/// The facts, the one of the old name by the new one, which none has.
fn renamed_facts(alloc: Global, old: &Name, new: &Name, facts: &Facts) -> Result<Facts, Memory>
    requires apart { FactsDiffer facts.now }
    requires free { NoFact new.now facts.now }
    ensures { IfOk result (λ fs. fs ≡ map (renamed_fact old.now new.now) facts.now) }
{
    let len = facts.len();
    let mut out = Facts::new(alloc);
    let mut next = 0;
    while next < len {
        let i = next;
        next += 1;
        if let Some(name) = facts.name(i) {
            if let Some(pure) = facts.pure(i) {
                push_fact(alloc, old, new, name, pure, &mut out)?;
            }
        }
    }
    Ok(out)
}

/// The goal with the new name, which is free, in the place of the old one.
fn with_renamed(alloc: Global, goal: &Goal, old: &Name, new: &Name) -> Result<Goal, Memory>
    requires apart { NamesDiffer goal.now }
    requires free { works.fits goal.now new.now ≡ true }
    ensures { IfOk result (λ g. g ≡ table.with_renamed old.now new.now goal.now) }
{
    let pures = renamed_facts(alloc, old, new, &goal.pures)?;
    let ints = renamed_hyps(alloc, old, new, &goal.ints)?;
    let spats = renamed_hyps(alloc, old, new, &goal.spats)?;
    let mut copied = copy_goal(alloc, goal)?;
    copied.pures = pures;
    copied.ints = ints;
    copied.spats = spats;
    Ok(copied)
}

/// `iRename`: the hypothesis or fact gets the new name in its place.
///
/// It is refused where the goal has none of the old name, where the new one is in use or is `_` and digits, and where the work
/// passes a limit.
pub fn rename(alloc: Global, work: &Work, old: &Name, new: &Name) -> Result<Parts<Place>, StepFault>
    requires handed { IsHanded work.now }
    requires nothing { work.now.held ≡ [] }
    ensures { Answers (all_nodes (work_formulas work.now)) work.now (limited (table.on_goal (table.rename old.now new.now) work.now)) result }
{
    if !is_named(&work.goal, old) {
        return Err(refuse(alloc, Row::NoSuchHypothesis, old));
    }
    if !is_free(&work.goal, new) {
        return Err(refuse(alloc, Row::NameInUse, new));
    }
    let goal = with_renamed(alloc, &work.goal, old, new)?;
    let rested = at_rest(alloc, goal);
    unmoved(alloc, work, rested)
}

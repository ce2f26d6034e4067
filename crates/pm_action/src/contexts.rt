//! Contexts and hands with less or more in them.

ghost use Rattle.std.specs.Prelude.{◌≡◌, ◌<◌, ◌^◌, ◌++◌, ◌∷◌, [], IfOk, OnOk, None, length, position};
ghost use Rattle.std.specs.Str.{bytes_eq};
ghost use Rattle.pm_table.specs.Works as works;
ghost use Rattle.pm_table.specs.Limits as limits;
ghost use Rattle.pm_action.specs.Acting.{IsLast, all_but_last, last_place};
ghost use Rattle.pm_action.specs.Naming.{HypsDiffer, FactsDiffer, other_hyp, other_fact};

use pm_goal::{Ctx, Fact, Facts, Goal, Held, Hyp, Kind, Work};
use pm_logic::{Formula, List, Memory, Name, Pure, copy, copy_name, copy_pure};
use std::alloc::Global;

/// The last in hand.
pub fn last(work: &Work) -> &Held
    requires { 0 < length work.now.held }
    ensures { IsLast work.now result.now }
{
    let held = work.held.as_slice();
    &held[held.len() - 1]
}

fn copy_held(alloc: Global, held: &Held) -> Result<Held, Memory>
    ensures { IfOk result (λ h. h ≡ held.now) }
{
    let formula = copy(alloc, &held.formula)?;
    Ok(Held {
        kind: held.kind,
        formula,
    })
}

/// What is in hand but for the last.
pub fn others(alloc: Global, work: &Work) -> Result<List<Held>, Memory>
    requires { 0 < length work.now.held }
    ensures { IfOk result (λ hs. hs ≡ all_but_last work.now.held) }
{
    let held = work.held.as_slice();
    let count = held.len() - 1;
    let mut out = List::new(alloc);
    let mut i = 0;
    while i < count {
        out.push(copy_held(alloc, &held[i])?)?;
        i += 1;
    }
    Ok(out)
}

/// The goal with one more in hand.
pub fn with_held(goal: Goal, held: List<Held>, kind: Kind, formula: Formula) -> Result<Work, Memory>
    ensures { IfOk result (λ w. w ≡ works.work_of goal (held ++ works.holding kind formula ∷ [])) }
{
    let mut held = held;
    held.push(Held { kind, formula })?;
    Ok(Work { goal, held })
}

/// Adds a copy of the hypothesis, where it has another name.
fn keep_hyp(
    alloc: Global,
    name: &Name,
    other: &Name,
    formula: &Formula,
    out: &mut Ctx,
) -> Result<(), Memory>
    requires { position (λ h. bytes_eq other.now h.name) out.now ≡ None }
    ensures { OnOk result (out.new ≡ out.old ++ other_hyp name.now (works.hyp other.now formula.now)) }
{
    if name.bytes() == other.bytes() {
        return Ok(());
    }
    let name = copy_name(alloc, other)?;
    let formula = copy(alloc, formula)?;
    out.push(Hyp { name, formula })
}

/// The hypotheses of other names.
pub fn hyps_but(alloc: Global, name: &Name, hyps: &Ctx) -> Result<Ctx, Memory>
    requires { HypsDiffer hyps.now }
    ensures { IfOk result (λ hs. hs ≡ works.hyps_but name.now hyps.now) }
{
    let len = hyps.len();
    let mut out = Ctx::new(alloc);
    let mut next = 0;
    while next < len {
        let i = next;
        next += 1;
        if let Some(other) = hyps.name(i) {
            if let Some(formula) = hyps.formula(i) {
                keep_hyp(alloc, name, other, formula, &mut out)?;
            }
        }
    }
    Ok(out)
}

/// Adds a copy of the fact, where it has another name.
fn keep_fact(
    alloc: Global,
    name: &Name,
    other: &Name,
    pure: &Pure,
    out: &mut Facts,
) -> Result<(), Memory>
    requires { position (λ f. bytes_eq other.now f.name) out.now ≡ None }
    ensures { OnOk result (out.new ≡ out.old ++ other_fact name.now (works.fact other.now pure.now)) }
{
    if name.bytes() == other.bytes() {
        return Ok(());
    }
    let name = copy_name(alloc, other)?;
    let pure = copy_pure(alloc, pure)?;
    out.push(Fact { name, pure })
}

/// The facts of other names.
pub fn facts_but(alloc: Global, name: &Name, facts: &Facts) -> Result<Facts, Memory>
    requires { FactsDiffer facts.now }
    ensures { IfOk result (λ fs. fs ≡ works.facts_but name.now facts.now) }
{
    let len = facts.len();
    let mut out = Facts::new(alloc);
    let mut next = 0;
    while next < len {
        let i = next;
        next += 1;
        if let Some(other) = facts.name(i) {
            if let Some(pure) = facts.pure(i) {
                keep_fact(alloc, name, other, pure, &mut out)?;
            }
        }
    }
    Ok(out)
}

/// The place in the star of the last in hand.
pub fn last_place(work: &Work) -> u32
    requires held { 0 < length work.now.held }
    requires few { limits.hypotheses work.now < 2 ^ 32 }
    ensures { result ≡ last_place work.now }
{
    let goal = &work.goal;
    (goal.pures.len() + goal.ints.len() + goal.spats.len() + work.held.len() - 1) as u32
}

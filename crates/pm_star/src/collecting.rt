//! The parts of a goal's star, in a list.

ghost use Rattle.std.specs.Prelude.{◌≡◌, ◌++◌, IfOk, OnOk};
ghost use Rattle.pm_goal.specs.Left.{of_kind, facts, hyps_as, hyps, held_parts};
ghost use Rattle.pm_star.specs.Stars.{shared, parts, work_parts};

use pm_goal::{Ctx, Facts, Goal, Held, Kind, Work};
use pm_logic::{Formula, List, Memory, copy, copy_pure, pers};
use std::alloc::Global;

/// The formula as its kind stands in a star.
fn of_kind(alloc: Global, kind: Kind, formula: &Formula) -> Result<Formula, Memory>
    ensures { IfOk result (λ f. f ≡ of_kind kind formula.now) }
{
    let formula = copy(alloc, formula)?;
    match kind {
        Kind::Int => pers(alloc, formula),
        Kind::Spat => Ok(formula),
    }
}

fn push_facts(alloc: Global, list: &Facts, out: &mut List<Formula>) -> Result<(), Memory>
    ensures { OnOk result (out.new ≡ out.old ++ facts list.now) }
{
    let len = list.len();
    let mut next = 0;
    while next < len {
        let i = next;
        next += 1;
        if let Some(pure) = list.pure(i) {
            out.push(Formula::Pure(copy_pure(alloc, pure)?))?;
        }
    }
    Ok(())
}

fn push_hyps(alloc: Global, kind: Kind, list: &Ctx, out: &mut List<Formula>) -> Result<(), Memory>
    ensures { OnOk result (out.new ≡ out.old ++ hyps_as kind list.now) }
{
    let len = list.len();
    let mut next = 0;
    while next < len {
        let i = next;
        next += 1;
        if let Some(formula) = list.formula(i) {
            out.push(of_kind(alloc, kind, formula)?)?;
        }
    }
    Ok(())
}

fn push_held(alloc: Global, list: &[Held], out: &mut List<Formula>) -> Result<(), Memory>
    ensures { OnOk result (out.new ≡ out.old ++ held_parts list.now) }
{
    for held in list {
        out.push(of_kind(alloc, held.kind, &held.formula)?)?;
    }
    Ok(())
}

/// The parts that may be used any number of times: the facts, and the intuitionistic hypotheses under `□`.
pub fn shared_parts(alloc: Global, goal: &Goal) -> Result<List<Formula>, Memory>
    ensures { IfOk result (λ l. l ≡ shared goal.now) }
{
    let mut out = List::new(alloc);
    push_facts(alloc, &goal.pures, &mut out)?;
    push_hyps(alloc, Kind::Int, &goal.ints, &mut out)?;
    Ok(out)
}

/// Adds the spatial ones.
pub fn push_spats(alloc: Global, goal: &Goal, out: &mut List<Formula>) -> Result<(), Memory>
    ensures { OnOk result (out.new ≡ out.old ++ hyps goal.now.spats) }
{
    push_hyps(alloc, Kind::Spat, &goal.spats, out)
}

/// The spatial ones alone.
pub fn spats_of(alloc: Global, goal: &Goal) -> Result<List<Formula>, Memory>
    ensures { IfOk result (λ l. l ≡ hyps goal.now.spats) }
{
    let mut out = List::new(alloc);
    push_hyps(alloc, Kind::Spat, &goal.spats, &mut out)?;
    Ok(out)
}

/// All parts of a goal's star.
pub fn parts_of(alloc: Global, goal: &Goal) -> Result<List<Formula>, Memory>
    ensures { IfOk result (λ l. l ≡ parts goal.now) }
{
    let mut out = shared_parts(alloc, goal)?;
    push_hyps(alloc, Kind::Spat, &goal.spats, &mut out)?;
    Ok(out)
}

/// All parts of the star of a goal with hypotheses in hand.
pub fn work_parts_of(alloc: Global, work: &Work) -> Result<List<Formula>, Memory>
    ensures { IfOk result (λ l. l ≡ work_parts work.now) }
{
    let mut out = parts_of(alloc, &work.goal)?;
    push_held(alloc, work.held.as_slice(), &mut out)?;
    Ok(out)
}

/// Adds the spatial ones, and those in hand.
pub fn push_owned(alloc: Global, work: &Work, out: &mut List<Formula>) -> Result<(), Memory>
    ensures { OnOk result (out.new ≡ out.old ++ hyps work.now.goal.spats ++ held_parts work.now.held) }
{
    push_hyps(alloc, Kind::Spat, &work.goal.spats, out)?;
    push_held(alloc, work.held.as_slice(), out)
}

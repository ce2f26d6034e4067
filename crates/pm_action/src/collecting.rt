//! The formulas of a work, in a list.

ghost use Rattle.std.specs.Prelude.{◌≡◌, ◌∷◌, [], ◌++◌, IfOk, OnOk, map};
ghost use Rattle.pm_goal.specs.Left.{facts, hyps};
ghost use Rattle.pm_table.specs.Limits.{formulas, work_formulas};
ghost use Rattle.pm_table.specs.Works.{work_of};

use pm_goal::{Ctx, Facts, Goal, Held};
use pm_logic::{Formula, List, Memory, copy, copy_pure};
use std::alloc::Global;

fn push_facts(alloc: Global, list: &Facts, out: &mut List<Formula>) -> Result<(), Memory>
    ensures { OnOk result (out.new ≡ out.old ++ facts list.now) }
{
    let len = list.len();
    let mut next = 0;
    while next < len {
        let i = next;
        next += 1;
        if let Some(pure) = list.pure(i) {
            out.push(Formula::Pure(copy_pure(alloc, pure)?))?;
        }
    }
    Ok(())
}

fn push_hyps(alloc: Global, list: &Ctx, out: &mut List<Formula>) -> Result<(), Memory>
    ensures { OnOk result (out.new ≡ out.old ++ hyps list.now) }
{
    let len = list.len();
    let mut next = 0;
    while next < len {
        let i = next;
        next += 1;
        if let Some(formula) = list.formula(i) {
            out.push(copy(alloc, formula)?)?;
        }
    }
    Ok(())
}

fn push_held(alloc: Global, list: &[Held], out: &mut List<Formula>) -> Result<(), Memory>
    ensures { OnOk result (out.new ≡ out.old ++ map (λ h. h.formula) list.now) }
{
    for held in list {
        out.push(copy(alloc, &held.formula)?)?;
    }
    Ok(())
}

fn formulas_of(alloc: Global, goal: &Goal) -> Result<List<Formula>, Memory>
    ensures { IfOk result (λ l. l ≡ formulas goal.now) }
{
    let mut out = List::new(alloc);
    push_facts(alloc, &goal.pures, &mut out)?;
    push_hyps(alloc, &goal.ints, &mut out)?;
    push_hyps(alloc, &goal.spats, &mut out)?;
    out.push(copy(alloc, &goal.concl)?)?;
    Ok(out)
}

/// The facts as formulas, the hypotheses, the conclusion, and what is in hand.
pub fn formulas_with(alloc: Global, goal: &Goal, held: &[Held]) -> Result<List<Formula>, Memory>
    ensures { IfOk result (λ l. l ≡ work_formulas (work_of goal.now held.now)) }
{
    let mut out = formulas_of(alloc, goal)?;
    push_held(alloc, held, &mut out)?;
    Ok(out)
}

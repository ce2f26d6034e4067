//! From the star of a work to what is last in hand beside the star of the goal.

ghost use Rattle.std.specs.Prelude.{◌≡◌, ◌<◌, ◌^◌, IfOk, length};
ghost use Rattle.pm_goal.specs.Left.{of_kind};
ghost use Rattle.pm_table.specs.Limits.{hypotheses};
ghost use Rattle.pm_table.specs.Works as works;
ghost use Rattle.pm_action.specs.Acting.{IsLast, all_but_last};
ghost use Rattle.pm_apply.specs.Reaching.{IsBeside, one_fewer};

use pm_action::{last_place, others, with_held};
use pm_goal::{Held, Work, copy_goal};
use pm_logic::{Memory, copy};
use pm_proof::Proof;
use pm_star::{bring_front_held, compose, drop_at_held};
use std::alloc::Global;

/// The work without what is last in hand.
fn without_last(alloc: Global, work: &Work) -> Result<Work, Memory>
    requires { 0 < length work.now.held }
    ensures { IfOk result (λ w. w ≡ works.work_of work.now.goal (all_but_last work.now.held)) }
{
    let goal = copy_goal(alloc, &work.goal)?;
    let held = others(alloc, work)?;
    Ok(Work { goal, held })
}

/// The work without what is in hand before the last.
fn one_fewer(alloc: Global, work: &Work, held: &Held) -> Result<Work, Memory>
    requires several { 1 < length work.now.held }
    requires last { IsLast work.now held.now }
    ensures { IfOk result (λ w. w ≡ one_fewer work.now held.now) }
{
    let rest = without_last(alloc, work)?;
    let held_before = others(alloc, &rest)?;
    let goal = copy_goal(alloc, &work.goal)?;
    let formula = copy(alloc, &held.formula)?;
    with_held(goal, held_before, held.kind, formula)
}

/// From the star of the work to what is last in hand beside the star of the goal: what else is in hand is lost.
pub fn last_beside(alloc: Global, work: &Work, held: &Held) -> Result<Proof, Memory>
    requires vars { length work.now.goal.vars < 2 ^ 32 }
    requires few { hypotheses work.now < 2 ^ 32 }
    requires last { IsLast work.now held.now }
    ensures { IfOk result (IsBeside work.now (of_kind held.now.kind held.now.formula)) }
{
    let place = last_place(work);
    if work.held.len() == 1 {
        let proof = bring_front_held(alloc, work, place)?;
        return Ok(proof);
    }
    let lost = drop_at_held(alloc, work, place - 1)?;
    let rest = one_fewer(alloc, work, held)?;
    let beside = last_beside(alloc, &rest, held)?;
    let proof = compose(alloc, lost, beside)?;
    Ok(proof)
}

//! Proofs that run an update of a part of the star.

ghost use Rattle.std.specs.Prelude.{◌≡◌, ◌<◌, ◌≤◌, ◌^◌, IfOk, length, insert};
ghost use Rattle.pm_logic.specs.declared.formula.Formula.TheViews as view;
ghost use Rattle.pm_proof.specs.Trees.{entail, conclusion};
ghost use Rattle.pm_star.specs.Stars.{work_parts};
ghost use Rattle.pm_heap.specs.Updates.{Runs, Reaches};

use crate::steps::updated_beside;
use pm_action::wanted;
use pm_goal::Work;
use pm_logic::{Formula, Memory};
use pm_proof::Proof;
use pm_star::{compose, sink_held};
use std::alloc::Global;

/// From an update of `a` to `b`, and from `b` beside `x` to an update of `q`: the same from `a` beside `x`.
pub fn run_beside(
    alloc: Global,
    vars: u32,
    a: &Formula,
    b: &Formula,
    x: &Formula,
    q: &Formula,
    update: Proof,
    follows: Proof,
) -> Result<Proof, Memory>
    requires update { conclusion update ≡ entail vars a.now (view.Upd b.now) }
    requires follows { conclusion follows ≡ entail vars (view.Sep b.now x.now) (view.Upd q.now) }
    ensures { IfOk result (Runs vars a.now b.now x.now q.now update follows) }
{
    let step = updated_beside(alloc, vars, a, b, x, q)?;
    let step = step.fill(1, follows);
    Ok(step.fill(0, update))
}

/// From what the new work means, which is the hole: its conclusion, by the part beside the star of the rest, in which it stands
/// at the place.
pub fn reach(
    alloc: Global,
    rest: &Work,
    part: &Formula,
    place: u32,
    new: &Work,
) -> Result<Proof, Memory>
    requires few { length rest.now.goal.vars < 2 ^ 32 }
    requires vars { length new.now.goal.vars ≡ length rest.now.goal.vars }
    requires within { place ≤ length (work_parts rest.now) }
    requires more { work_parts new.now ≡ insert (work_parts rest.now) place part.now }
    ensures { IfOk result (Reaches rest.now part.now new.now) }
{
    let moved = sink_held(alloc, rest, part, place)?;
    let wanted = wanted(alloc, new)?;
    let proof = compose(alloc, moved, wanted)?;
    Ok(proof)
}

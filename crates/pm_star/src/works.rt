//! The moves within the star of a goal with hypotheses in hand, in the bounds of those of a goal.

ghost use Rattle.std.specs.Prelude.{◌≡◌, ◌+◌, ◌<◌, ◌≤◌, ◌^◌, IfOk, length, set, insert};
ghost use Rattle.pm_logic.specs.declared.formula.Formula.TheViews as view;
ghost use Rattle.pm_goal.specs.Left.{left_of_work};
ghost use Rattle.pm_proof.specs.Trees.{entail, conclusion};
ghost use Rattle.pm_star.specs.Stars.{star, shared, work_parts, MayRepeat, part_at, without, in_front, duplicated, dealt, Moves, MovesBy};
ghost use Rattle.pm_star.specs.Levels.{left_side, right_side};
ghost use Rattle.pm_star.specs.Chains.{moved, paired, joined};

use crate::collecting::{push_owned, shared_parts, work_parts_of};
use crate::moves::{double, exchange, omit, split, to_front};
use crate::pairing::{merge, unpair};
use crate::relocating::relocate;
use crate::sinking::to_place;
use pm_goal::Work;
use pm_logic::{Formula, List, Memory};
use pm_proof::Proof;
use std::alloc::Global;

/// From the star to the star with the part at the place in front.
///
/// Places count the hypotheses in hand too, which stand behind.
pub fn bring_front_held(alloc: Global, work: &Work, place: u32) -> Result<Proof, Memory>
    requires vars { length work.now.goal.vars < 2 ^ 32 }
    requires place { place < length (work_parts work.now) }
    ensures { IfOk result (λ p. Moves (length work.now.goal.vars) (length (work_parts work.now)) (left_of_work work.now) (star (in_front (work_parts work.now) place)) p) }
{
    let parts = work_parts_of(alloc, work)?;
    let vars = work.goal.vars.len() as u32;
    let proof = to_front(alloc, vars, parts.as_slice(), place as usize)?;
    Ok(proof)
}

/// From the star to the star with the part at the place once more in front, which is a fact or an intuitionistic hypothesis,
/// of the goal or in hand.
pub fn duplicate_held(alloc: Global, work: &Work, place: u32) -> Result<Proof, Memory>
    requires vars { length work.now.goal.vars < 2 ^ 32 }
    requires place { MayRepeat work.now place }
    ensures { IfOk result (λ p. Moves (length work.now.goal.vars) (length (work_parts work.now)) (left_of_work work.now) (star (duplicated (work_parts work.now) place)) p) }
{
    let parts = work_parts_of(alloc, work)?;
    let vars = work.goal.vars.len() as u32;
    let proof = double(alloc, vars, parts.as_slice(), place as usize)?;
    Ok(proof)
}

/// From the star to the star without the part at the place.
pub fn drop_at_held(alloc: Global, work: &Work, place: u32) -> Result<Proof, Memory>
    requires vars { length work.now.goal.vars < 2 ^ 32 }
    requires place { place < length (work_parts work.now) }
    ensures { IfOk result (λ p. Moves (length work.now.goal.vars) (length (work_parts work.now)) (left_of_work work.now) (star (without (work_parts work.now) place)) p) }
{
    let parts = work_parts_of(alloc, work)?;
    let vars = work.goal.vars.len() as u32;
    let proof = omit(alloc, vars, parts.as_slice(), place as usize)?;
    Ok(proof)
}

/// From the star to the star with the right side of `by` in place of the part at the place, which is its left side. The
/// proof has the holes of `by`, is valid wherever that one is, and the bounds are on what it adds.
pub fn replace_at_held(alloc: Global, work: &Work, place: u32, by: Proof) -> Result<Proof, Memory>
    requires vars { length work.now.goal.vars < 2 ^ 32 }
    requires place { place < length (work_parts work.now) }
    requires same_vars { (conclusion by).vars ≡ length work.now.goal.vars }
    requires left { left_side by ≡ part_at (work_parts work.now) place }
    ensures { IfOk result (λ p. MovesBy by (length work.now.goal.vars) (length (work_parts work.now)) (left_of_work work.now) (star (set (work_parts work.now) place (right_side by))) p) }
{
    let parts = work_parts_of(alloc, work)?;
    let vars = work.goal.vars.len() as u32;
    let proof = exchange(alloc, vars, parts.as_slice(), place as usize, by)?;
    Ok(proof)
}

/// From the star to two stars, each in the old order: the facts and the intuitionistic hypotheses stand in both, of the others
/// those at the places of `left` in the first, and those at no such place in the second.
pub fn partition_held(alloc: Global, work: &Work, left: &List<u32>) -> Result<Proof, Memory>
    requires vars { length work.now.goal.vars < 2 ^ 32 }
    ensures { IfOk result (λ p. Moves (length work.now.goal.vars) (length (work_parts work.now)) (left_of_work work.now) (dealt (length (shared work.now.goal)) left.now (work_parts work.now)) p) }
{
    let mut parts = shared_parts(alloc, &work.goal)?;
    let shared = parts.len();
    push_owned(alloc, work, &mut parts)?;
    let vars = work.goal.vars.len() as u32;
    let proof = split(alloc, vars, parts.as_slice(), shared, left.as_slice())?;
    Ok(proof)
}

/// From `a` beside the star to the star with `a` at the place, before the part that has it now, or behind all.
pub fn sink_held(alloc: Global, work: &Work, a: &Formula, place: u32) -> Result<Proof, Memory>
    requires vars { length work.now.goal.vars < 2 ^ 32 }
    requires place { place ≤ length (work_parts work.now) }
    ensures { IfOk result (λ p. Moves (length work.now.goal.vars) (length (work_parts work.now)) (view.Sep a.now (left_of_work work.now)) (star (insert (work_parts work.now) place a.now)) p) }
{
    let parts = work_parts_of(alloc, work)?;
    let vars = work.goal.vars.len() as u32;
    let proof = to_place(alloc, vars, a, parts.as_slice(), place as usize)?;
    Ok(proof)
}

/// From the star to the star with the part at the place `from` at the place `to`, the others in their order.
pub fn carry_held(alloc: Global, work: &Work, from: u32, to: u32) -> Result<Proof, Memory>
    requires vars { length work.now.goal.vars < 2 ^ 32 }
    requires from { from < length (work_parts work.now) }
    requires to { to < length (work_parts work.now) }
    ensures { IfOk result (λ p. Moves (length work.now.goal.vars) (length (work_parts work.now)) (left_of_work work.now) (star (moved (work_parts work.now) from to)) p) }
{
    let parts = work_parts_of(alloc, work)?;
    let vars = work.goal.vars.len() as u32;
    let proof = relocate(alloc, vars, parts.as_slice(), from as usize, to as usize)?;
    Ok(proof)
}

/// From the star to the star with two parts in place of the part at the place, from which `by` proves the star of the two. The
/// proof has the holes of `by`, is valid wherever that one is, and the bounds are on what it adds.
pub fn unpair_held(
    alloc: Global,
    work: &Work,
    place: u32,
    by: Proof,
    first: &Formula,
    second: &Formula,
) -> Result<Proof, Memory>
    requires vars { length work.now.goal.vars < 2 ^ 32 }
    requires place { place < length (work_parts work.now) }
    requires proof { conclusion by ≡ entail (length work.now.goal.vars) (part_at (work_parts work.now) place) (view.Sep first.now second.now) }
    ensures { IfOk result (λ p. MovesBy by (length work.now.goal.vars) (length (work_parts work.now)) (left_of_work work.now) (star (paired (work_parts work.now) place first.now second.now)) p) }
{
    let parts = work_parts_of(alloc, work)?;
    let vars = work.goal.vars.len() as u32;
    let proof = unpair(
        alloc,
        vars,
        parts.as_slice(),
        place as usize,
        by,
        first,
        second,
    )?;
    Ok(proof)
}

/// From the star to the star with the right side of `by` in place of the part at the place and the next one, the star of which
/// is its left side. The proof has the holes of `by`, is valid wherever that one is, and the bounds are on what it adds.
pub fn merge_held(alloc: Global, work: &Work, place: u32, by: Proof) -> Result<Proof, Memory>
    requires vars { length work.now.goal.vars < 2 ^ 32 }
    requires place { place + 1 < length (work_parts work.now) }
    requires proof { conclusion by ≡ entail (length work.now.goal.vars) (view.Sep (part_at (work_parts work.now) place) (part_at (work_parts work.now) (place + 1))) (right_side by) }
    ensures { IfOk result (λ p. MovesBy by (length work.now.goal.vars) (length (work_parts work.now)) (left_of_work work.now) (star (joined (work_parts work.now) place (right_side by))) p) }
{
    let parts = work_parts_of(alloc, work)?;
    let vars = work.goal.vars.len() as u32;
    let proof = merge(alloc, vars, parts.as_slice(), place as usize, by)?;
    Ok(proof)
}

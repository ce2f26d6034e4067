//! The moves within the star of a goal. Each proof has at most 100 rules for each part of the star and 100 more, no formula
//! in it is deeper by more than 8 than the deeper side of what it proves, and it is in the goal's variables.

ghost use Rattle.std.specs.Prelude.{◌≡◌, ◌<◌, ◌≤◌, ◌^◌, IfOk, length, set, insert};
ghost use Rattle.pm_logic.specs.declared.formula.Formula.TheViews as view;
ghost use Rattle.pm_goal.specs.Left.{left_of};
ghost use Rattle.pm_proof.specs.Trees.{conclusion};
ghost use Rattle.pm_star.specs.Stars.{star, shared, parts, part_at, without, in_front, duplicated, dealt, Moves, MovesBy};
ghost use Rattle.pm_star.specs.Levels.{left_side, right_side};

use crate::boxing::to_box;
use crate::collecting::{parts_of, push_spats, shared_parts, spats_of};
use crate::moves::{double, exchange, omit, split, to_front};
use crate::sinking::to_place;
use pm_goal::Goal;
use pm_logic::{Formula, List, Memory};
use pm_proof::Proof;
use std::alloc::Global;

/// From the star to the star with the part at the place in front.
///
/// Places count the facts, then the intuitionistic hypotheses, then the spatial ones, from 0.
pub fn bring_front(alloc: Global, goal: &Goal, place: u32) -> Result<Proof, Memory>
    requires vars { length goal.now.vars < 2 ^ 32 }
    requires place { place < length (parts goal.now) }
    ensures { IfOk result (λ p. Moves (length goal.now.vars) (length (parts goal.now)) (left_of goal.now) (star (in_front (parts goal.now) place)) p) }
{
    let parts = parts_of(alloc, goal)?;
    let vars = goal.vars.len() as u32;
    let proof = to_front(alloc, vars, parts.as_slice(), place as usize)?;
    Ok(proof)
}

/// From the star to the star with the part at the place once more in front, which is a fact or an intuitionistic hypothesis.
pub fn duplicate(alloc: Global, goal: &Goal, place: u32) -> Result<Proof, Memory>
    requires vars { length goal.now.vars < 2 ^ 32 }
    requires place { place < length (shared goal.now) }
    ensures { IfOk result (λ p. Moves (length goal.now.vars) (length (parts goal.now)) (left_of goal.now) (star (duplicated (parts goal.now) place)) p) }
{
    let parts = parts_of(alloc, goal)?;
    let vars = goal.vars.len() as u32;
    let proof = double(alloc, vars, parts.as_slice(), place as usize)?;
    Ok(proof)
}

/// From the star to the star without the part at the place.
pub fn drop_at(alloc: Global, goal: &Goal, place: u32) -> Result<Proof, Memory>
    requires vars { length goal.now.vars < 2 ^ 32 }
    requires place { place < length (parts goal.now) }
    ensures { IfOk result (λ p. Moves (length goal.now.vars) (length (parts goal.now)) (left_of goal.now) (star (without (parts goal.now) place)) p) }
{
    let parts = parts_of(alloc, goal)?;
    let vars = goal.vars.len() as u32;
    let proof = omit(alloc, vars, parts.as_slice(), place as usize)?;
    Ok(proof)
}

/// From the star to the star with the right side of `by` in place of the part at the place, which is its left side. The
/// proof has the holes of `by`, is valid wherever that one is, and the bounds are on what it adds.
pub fn replace_at(alloc: Global, goal: &Goal, place: u32, by: Proof) -> Result<Proof, Memory>
    requires vars { length goal.now.vars < 2 ^ 32 }
    requires place { place < length (parts goal.now) }
    requires same_vars { (conclusion by).vars ≡ length goal.now.vars }
    requires left { left_side by ≡ part_at (parts goal.now) place }
    ensures { IfOk result (λ p. MovesBy by (length goal.now.vars) (length (parts goal.now)) (left_of goal.now) (star (set (parts goal.now) place (right_side by))) p) }
{
    let parts = parts_of(alloc, goal)?;
    let vars = goal.vars.len() as u32;
    let proof = exchange(alloc, vars, parts.as_slice(), place as usize, by)?;
    Ok(proof)
}

/// From the star to two stars, each in the old order: the facts and the intuitionistic hypotheses stand in both, of the others
/// those at the places of `left` in the first, and those at no such place in the second.
pub fn partition(alloc: Global, goal: &Goal, left: &List<u32>) -> Result<Proof, Memory>
    requires vars { length goal.now.vars < 2 ^ 32 }
    ensures { IfOk result (λ p. Moves (length goal.now.vars) (length (parts goal.now)) (left_of goal.now) (dealt (length (shared goal.now)) left.now (parts goal.now)) p) }
{
    let mut parts = shared_parts(alloc, goal)?;
    let shared = parts.len();
    push_spats(alloc, goal, &mut parts)?;
    let vars = goal.vars.len() as u32;
    let proof = split(alloc, vars, parts.as_slice(), shared, left.as_slice())?;
    Ok(proof)
}

/// From `a` beside the star to the star with `a` at the place, before the part that has it now, or behind all.
pub fn sink(alloc: Global, goal: &Goal, a: &Formula, place: u32) -> Result<Proof, Memory>
    requires vars { length goal.now.vars < 2 ^ 32 }
    requires place { place ≤ length (parts goal.now) }
    ensures { IfOk result (λ p. Moves (length goal.now.vars) (length (parts goal.now)) (view.Sep a.now (left_of goal.now)) (star (insert (parts goal.now) place a.now)) p) }
{
    let parts = parts_of(alloc, goal)?;
    let vars = goal.vars.len() as u32;
    let proof = to_place(alloc, vars, a, parts.as_slice(), place as usize)?;
    Ok(proof)
}

/// From the star to the star of the facts and the intuitionistic hypotheses alone, under a box.
pub fn boxed(alloc: Global, goal: &Goal) -> Result<Proof, Memory>
    requires { length goal.now.vars < 2 ^ 32 }
    ensures { IfOk result (λ p. Moves (length goal.now.vars) (length (parts goal.now)) (left_of goal.now) (view.Pers (star (shared goal.now))) p) }
{
    let shared = shared_parts(alloc, goal)?;
    let spats = spats_of(alloc, goal)?;
    let vars = goal.vars.len() as u32;
    let proof = to_box(alloc, vars, shared.as_slice(), spats.as_slice())?;
    Ok(proof)
}

//! The moves, on the parts of a star.

ghost use Rattle.std.specs.Prelude.{◌≡◌, ℕ, ◌<◌, ◌+◌, ◌*◌, IfOk, length, set};
ghost use Rattle.pm_logic.specs.declared.formula.Formula.TheViews as view;
ghost use Rattle.pm_goal.specs.Left.{star_onto};
ghost use Rattle.pm_proof.specs.Trees.{entail, conclusion};
ghost use Rattle.pm_star.specs.Stars.{star, part_at, in_front, duplicated, without, dealt, Moves, MovesBy};
ghost use Rattle.pm_star.specs.Levels.{IsShared, IsHalved, Around, left_side, right_side};

use crate::levels::{Halves, again};
use crate::rules;
use crate::walks::{behind_all, deal, star_of};
use pm_logic::{Formula, Memory, Pure, copy, sep};
use pm_proof::Proof;
use std::alloc::Global;

/// The left half stays in front of all the parts, which the right half gains.
fn past(alloc: Global, vars: u32, parts: &[Formula], halves: Halves) -> Result<Proof, Memory>
    requires { IsHalved vars halves }
    ensures { IfOk result (λ p. Around vars (30 * length parts.now + 4) halves.proof (star_onto parts.now (left_side halves.proof)) (view.Sep halves.left (star_onto parts.now halves.right)) p) }
{
    let made = deal(alloc, vars, parts, 0, &[], halves)?;
    let Halves {
        proof,
        left: _,
        right: _,
    } = made;
    Ok(proof)
}

/// The part at the place in front.
pub fn to_front(alloc: Global, vars: u32, parts: &[Formula], place: usize) -> Result<Proof, Memory>
    requires { place < length parts.now }
    ensures { IfOk result (λ p. Moves vars (length parts.now) (star parts.now) (star (in_front parts.now place)) p) }
{
    let part = &parts[place];
    let rest = star_of(alloc, &parts[place + 1..])?;
    let proof = rules::same(alloc, vars, part, &rest)?;
    let left = copy(alloc, part)?;
    let start = Halves {
        proof,
        left,
        right: rest,
    };
    let proof = past(alloc, vars, &parts[..place], start)?;
    Ok(proof)
}

/// A copy of the part at the place in front.
pub fn double(alloc: Global, vars: u32, parts: &[Formula], place: usize) -> Result<Proof, Memory>
    requires place { place < length parts.now }
    requires shared { IsShared (part_at parts.now place) }
    ensures { IfOk result (λ p. Moves vars (length parts.now) (star parts.now) (star (duplicated parts.now place)) p) }
{
    let part = &parts[place];
    let rest = star_of(alloc, &parts[place + 1..])?;
    let proof = again(alloc, vars, part, &rest)?;
    let left = copy(alloc, part)?;
    let right = sep(alloc, copy(alloc, part)?, rest)?;
    let start = Halves { proof, left, right };
    let proof = past(alloc, vars, &parts[..place], start)?;
    Ok(proof)
}

/// The part at the place gone.
pub fn omit(alloc: Global, vars: u32, parts: &[Formula], place: usize) -> Result<Proof, Memory>
    requires { place < length parts.now }
    ensures { IfOk result (λ p. Moves vars (length parts.now) (star parts.now) (star (without parts.now place)) p) }
{
    let rest = star_of(alloc, &parts[place + 1..])?;
    let proof = rules::dropped(alloc, vars, &parts[place], &rest)?;
    let proof = behind_all(alloc, vars, &parts[..place], proof)?;
    Ok(proof)
}

/// What `by` proves in place of the part at the place.
pub fn exchange(
    alloc: Global,
    vars: u32,
    parts: &[Formula],
    place: usize,
    by: Proof,
) -> Result<Proof, Memory>
    requires place { place < length parts.now }
    requires vars { (conclusion by).vars ≡ vars }
    requires left { left_side by ≡ part_at parts.now place }
    ensures { IfOk result (λ p. MovesBy by vars (length parts.now) (star parts.now) (star (set parts.now place (right_side by))) p) }
{
    let rest = star_of(alloc, &parts[place + 1..])?;
    let proof = beside(alloc, vars, &rest, by)?;
    let proof = behind_all(alloc, vars, &parts[..place], proof)?;
    Ok(proof)
}

/// The same entailment beside `rest` on both sides.
fn beside(alloc: Global, vars: u32, rest: &Formula, by: Proof) -> Result<Proof, Memory>
    requires { (conclusion by).vars ≡ vars }
    ensures { IfOk result (λ p. Around vars 2 by (view.Sep (left_side by) rest.now) (view.Sep (right_side by) rest.now) p) }
{
    let e = by.conclusion();
    let step = rules::replaced(alloc, vars, &e.left, rest, &e.right)?;
    Ok(step.fill(0, by))
}

/// The parts dealt into two stars.
pub fn split(
    alloc: Global,
    vars: u32,
    parts: &[Formula],
    shared: usize,
    listed: &[u32],
) -> Result<Proof, Memory>
    requires { (i : ℕ) → i < shared → IsShared (part_at parts.now i) }
    ensures { IfOk result (λ p. Moves vars (length parts.now) (star parts.now) (dealt shared listed.now parts.now) p) }
{
    let proof = rules::nothing(alloc, vars)?;
    let start = Halves {
        proof,
        left: Formula::Pure(Pure::True),
        right: Formula::Pure(Pure::True),
    };
    let made = deal(alloc, vars, parts, shared, listed, start)?;
    let Halves {
        proof,
        left: _,
        right: _,
    } = made;
    Ok(proof)
}

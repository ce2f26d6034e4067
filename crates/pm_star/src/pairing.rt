//! Two parts of a star for one, and one for two that stand beside each other.

ghost use Rattle.std.specs.Prelude.{◌≡◌, ◌<◌, ◌+◌, IfOk, length};
ghost use Rattle.pm_logic.specs.declared.formula.Formula.TheViews as view;
ghost use Rattle.pm_proof.specs.Trees.{entail, conclusion};
ghost use Rattle.pm_star.specs.Stars.{star, part_at, MovesBy};
ghost use Rattle.pm_star.specs.Levels.{Around, right_side};
ghost use Rattle.pm_star.specs.Chains.{paired, joined};

use crate::rules::{merged, unpaired};
use crate::walks::{behind_all, star_of};
use pm_logic::{Formula, Memory};
use pm_proof::Proof;
use std::alloc::Global;

/// The two formulas for `x`, in front of `rest`.
fn two_for(
    alloc: Global,
    vars: u32,
    x: &Formula,
    rest: &Formula,
    by: Proof,
    first: &Formula,
    second: &Formula,
) -> Result<Proof, Memory>
    requires { conclusion by ≡ entail vars x.now (view.Sep first.now second.now) }
    ensures { IfOk result (λ p. Around vars 4 by (view.Sep x.now rest.now) (view.Sep first.now (view.Sep second.now rest.now)) p) }
{
    let step = unpaired(alloc, vars, x, rest, first, second)?;
    Ok(step.fill(0, by))
}

/// What `by` proves of `x` and `y`, for both, in front of `rest`.
fn one_for(
    alloc: Global,
    vars: u32,
    x: &Formula,
    y: &Formula,
    rest: &Formula,
    by: Proof,
) -> Result<Proof, Memory>
    requires { conclusion by ≡ entail vars (view.Sep x.now y.now) (right_side by) }
    ensures { IfOk result (λ p. Around vars 4 by (view.Sep x.now (view.Sep y.now rest.now)) (view.Sep (right_side by) rest.now) p) }
{
    let e = by.conclusion();
    let step = merged(alloc, vars, &e.right, rest, x, y)?;
    Ok(step.fill(0, by))
}

/// The two formulas in place of the part, which `by` proves from it.
pub fn unpair(
    alloc: Global,
    vars: u32,
    parts: &[Formula],
    place: usize,
    by: Proof,
    first: &Formula,
    second: &Formula,
) -> Result<Proof, Memory>
    requires place { place < length parts.now }
    requires proof { conclusion by ≡ entail vars (part_at parts.now place) (view.Sep first.now second.now) }
    ensures { IfOk result (λ p. MovesBy by vars (length parts.now) (star parts.now) (star (paired parts.now place first.now second.now)) p) }
{
    let rest = star_of(alloc, &parts[place + 1..])?;
    let proof = two_for(alloc, vars, &parts[place], &rest, by, first, second)?;
    let proof = behind_all(alloc, vars, &parts[..place], proof)?;
    Ok(proof)
}

/// What `by` proves of the part and the next one, in place of both.
pub fn merge(
    alloc: Global,
    vars: u32,
    parts: &[Formula],
    place: usize,
    by: Proof,
) -> Result<Proof, Memory>
    requires place { place + 1 < length parts.now }
    requires proof { conclusion by ≡ entail vars (view.Sep (part_at parts.now place) (part_at parts.now (place + 1))) (right_side by) }
    ensures { IfOk result (λ p. MovesBy by vars (length parts.now) (star parts.now) (star (joined parts.now place (right_side by))) p) }
{
    let rest = star_of(alloc, &parts[place + 2..])?;
    let proof = one_for(alloc, vars, &parts[place], &parts[place + 1], &rest, by)?;
    let proof = behind_all(alloc, vars, &parts[..place], proof)?;
    Ok(proof)
}

//! A part beside a star goes to a place in it. While it goes past other parts it stands behind them, where each takes three
//! lines of the length of the star; in front it would take nine.

ghost use Rattle.std.specs.Prelude.{◌≡◌, ◌≤◌, IfOk, length, insert};
ghost use Rattle.pm_logic.specs.declared.formula.Formula.TheViews as view;
ghost use Rattle.pm_star.specs.Stars.{star, Moves};
ghost use Rattle.pm_star.specs.Chains.{IsSunk, IsPast, IsPastAll};

use crate::beside::Beside;
use crate::rules::{crossed, other_way, passed};
use crate::walks::star_of;
use pm_logic::{Formula, Memory, copy, sep};
use pm_proof::Proof;
use std::alloc::Global;

/// `a` goes past one part.
fn past_one(
    alloc: Global,
    vars: u32,
    a: &Formula,
    x: &Formula,
    inner: Beside,
) -> Result<Beside, Memory>
    requires { IsSunk vars a.now inner }
    ensures { IfOk result (λ h. IsPast vars a.now x.now inner h) }
{
    let Beside { proof, part } = inner;
    let step = passed(alloc, vars, a, &part, &proof.conclusion().right, x)?;
    let part = sep(alloc, copy(alloc, x)?, part)?;
    let proof = step.fill(0, proof);
    Ok(Beside { proof, part })
}

/// `a` goes past all the parts.
fn past_all(
    alloc: Global,
    vars: u32,
    a: &Formula,
    parts: &[Formula],
    inner: Beside,
) -> Result<Beside, Memory>
    requires { IsSunk vars a.now inner }
    ensures { IfOk result (λ h. IsPastAll vars a.now parts.now 0 inner h) }
{
    let mut made = inner;
    let mut i = parts.len();
    while i > 0 {
        i -= 1;
        made = past_one(alloc, vars, a, &parts[i], made)?;
    }
    Ok(made)
}

/// From `a` and the star of the parts to the star with `a` at the place.
pub fn to_place(
    alloc: Global,
    vars: u32,
    a: &Formula,
    parts: &[Formula],
    place: usize,
) -> Result<Proof, Memory>
    requires { place ≤ length parts.now }
    ensures { IfOk result (λ p. Moves vars (length parts.now) (view.Sep a.now (star parts.now)) (star (insert parts.now place a.now)) p) }
{
    let rest = star_of(alloc, &parts[place..])?;
    let proof = crossed(alloc, vars, a, &rest)?;
    let start = Beside { proof, part: rest };
    let made = past_all(alloc, vars, a, &parts[..place], start)?;
    let Beside { proof, part } = made;
    let step = other_way(alloc, vars, a, &part, &proof.conclusion().right)?;
    Ok(step.fill(0, proof))
}

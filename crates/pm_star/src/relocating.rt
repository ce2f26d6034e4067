//! A part of a star at another place of it.

ghost use Rattle.std.specs.Prelude.{◌≡◌, ◌<◌, ◌≤◌, IfOk, length};
ghost use Rattle.pm_star.specs.Stars.{star, Moves};
ghost use Rattle.pm_star.specs.Chains.{moved};

use crate::moves::to_front;
use crate::sinking::to_place;
use crate::walks::behind_all;
use pm_logic::{Formula, Memory};
use pm_proof::Proof;
use std::alloc::Global;

/// The part at the place `from` at the place `to`, which is no earlier.
fn later(
    alloc: Global,
    vars: u32,
    parts: &[Formula],
    from: usize,
    to: usize,
) -> Result<Proof, Memory>
    requires order { from ≤ to }
    requires to { to < length parts.now }
    ensures { IfOk result (λ p. Moves vars (length parts.now) (star parts.now) (star (moved parts.now from to)) p) }
{
    let inner = to_place(alloc, vars, &parts[from], &parts[from + 1..], to - from)?;
    let proof = behind_all(alloc, vars, &parts[..from], inner)?;
    Ok(proof)
}

/// The part at the place `from` at the place `to`, which is earlier.
fn earlier(
    alloc: Global,
    vars: u32,
    parts: &[Formula],
    from: usize,
    to: usize,
) -> Result<Proof, Memory>
    requires order { to < from }
    requires from { from < length parts.now }
    ensures { IfOk result (λ p. Moves vars (length parts.now) (star parts.now) (star (moved parts.now from to)) p) }
{
    let inner = to_front(alloc, vars, &parts[to..], from - to)?;
    let proof = behind_all(alloc, vars, &parts[..to], inner)?;
    Ok(proof)
}

/// The part at the place where it stands: the star as it is.
fn stay(alloc: Global, vars: u32, parts: &[Formula], place: usize) -> Result<Proof, Memory>
    requires { place < length parts.now }
    ensures { IfOk result (λ p. Moves vars (length parts.now) (star parts.now) (star (moved parts.now place place)) p) }
{
    let proof = to_front(alloc, vars, parts, 0)?;
    Ok(proof)
}

/// The part at the place `from` at the place `to`, and the others in their order.
pub fn relocate(
    alloc: Global,
    vars: u32,
    parts: &[Formula],
    from: usize,
    to: usize,
) -> Result<Proof, Memory>
    requires from { from < length parts.now }
    requires to { to < length parts.now }
    ensures { IfOk result (λ p. Moves vars (length parts.now) (star parts.now) (star (moved parts.now from to)) p) }
{
    if from == to {
        stay(alloc, vars, parts, from)
    } else if from < to {
        later(alloc, vars, parts, from, to)
    } else {
        earlier(alloc, vars, parts, from, to)
    }
}

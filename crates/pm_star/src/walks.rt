//! Walks over the parts of a star, from the last one to the first, each building on what was built for the parts behind.

ghost use Rattle.std.specs.Prelude.{◌≡◌, ℕ, ◌<◌, ◌≤◌, IfOk, drop, length};
ghost use Rattle.pm_proof.specs.Trees.{conclusion};
ghost use Rattle.pm_star.specs.Stars.{star, part_at, side_at};
ghost use Rattle.pm_star.specs.Levels.{IsShared, IsHalved, IsDealt, IsSplit, IsBehind, facing};

use crate::levels::{Halves, behind, level, turned};
use crate::side::side_facing;
use pm_logic::{Formula, Memory, Pure, copy, sep};
use pm_proof::Proof;
use std::alloc::Global;

/// The star of the parts, ending in truth.
pub fn star_of(alloc: Global, parts: &[Formula]) -> Result<Formula, Memory>
    ensures { IfOk result (λ f. f ≡ star parts.now) }
{
    let mut made = Formula::Pure(Pure::True);
    let mut i = parts.len();
    while i > 0 {
        i -= 1;
        let part = copy(alloc, &parts[i])?;
        made = sep(alloc, part, made)?;
    }
    Ok(made)
}

/// The same entailment behind all the parts on both sides.
pub fn behind_all(
    alloc: Global,
    vars: u32,
    parts: &[Formula],
    inner: Proof,
) -> Result<Proof, Memory>
    requires { (conclusion inner).vars ≡ vars }
    ensures { IfOk result (λ p. IsBehind vars parts.now 0 inner p) }
{
    let mut made = inner;
    let mut i = parts.len();
    while i > 0 {
        i -= 1;
        made = behind(alloc, vars, &parts[i], made)?;
    }
    Ok(made)
}

/// All the parts more, each on its side or, where `crossed`, on the side across from it.
fn walk(
    alloc: Global,
    vars: u32,
    parts: &[Formula],
    crossed: bool,
    shared: usize,
    listed: &[u32],
    halves: Halves,
) -> Result<Halves, Memory>
    requires halved { IsHalved vars halves }
    requires shared { (i : ℕ) → i < shared → IsShared (part_at parts.now i) }
    ensures { IfOk result (λ h. IsDealt vars (facing crossed (side_at shared listed.now)) parts.now 0 halves h) }
{
    let mut made = halves;
    let mut i = parts.len();
    while i > 0 {
        i -= 1;
        let side = side_facing(crossed, shared, listed, i);
        made = level(alloc, vars, &parts[i], side, made)?;
    }
    Ok(made)
}

/// The same as `deal`: the halves are turned before the walk, and back after it.
fn deal_turned(
    alloc: Global,
    vars: u32,
    parts: &[Formula],
    shared: usize,
    listed: &[u32],
    halves: Halves,
) -> Result<Halves, Memory>
    requires halved { IsHalved vars halves }
    requires shared { (i : ℕ) → i < shared → IsShared (part_at parts.now i) }
    ensures { IfOk result (λ h. IsSplit vars (side_at shared listed.now) parts.now halves h) }
{
    let start = turned(alloc, vars, halves)?;
    let made = walk(alloc, vars, parts, true, shared, listed, start)?;
    let back = turned(alloc, vars, made)?;
    Ok(back)
}

/// All the parts more, each on its side: the first `shared` on both, those at the listed places on the left, all others on
/// the right. The left takes fewer rules than the right, so where more parts go to the right the walk is turned.
pub fn deal(
    alloc: Global,
    vars: u32,
    parts: &[Formula],
    shared: usize,
    listed: &[u32],
    halves: Halves,
) -> Result<Halves, Memory>
    requires halved { IsHalved vars halves }
    requires shared { (i : ℕ) → i < shared → IsShared (part_at parts.now i) }
    ensures { IfOk result (λ h. IsSplit vars (side_at shared listed.now) parts.now halves h) }
{
    let others = parts.len().saturating_sub(shared);
    if listed.len() < others.saturating_sub(listed.len()) {
        deal_turned(alloc, vars, parts, shared, listed, halves)
    } else {
        let made = walk(alloc, vars, parts, false, shared, listed, halves)?;
        Ok(made)
    }
}

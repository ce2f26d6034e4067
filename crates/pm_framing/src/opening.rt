//! From the star of a work to its conclusion, by what framing leaves of that.

ghost use Rattle.std.specs.Prelude.{◌<◌, ◌^◌, IfOk, length};
ghost use Rattle.pm_goal.specs.Left.{of_kind};
ghost use Rattle.pm_frame.specs.Frames.{FrameProof};
ghost use Rattle.pm_framing.specs.Parting.{IsApart, FrameStep, Opens};

use crate::rules::beside;
use pm_goal::{Kind, Work};
use pm_logic::{Formula, Memory};
use pm_proof::Proof;
use pm_star::compose;
use std::alloc::Global;

/// From `x ⊢ y`, which is its hole: `a` beside `x` entails `c`, by a proof that `a` beside `y` does.
fn step(
    alloc: Global,
    vars: u32,
    kind: Kind,
    a: &Formula,
    x: &Formula,
    y: &Formula,
    c: &Formula,
    by: Proof,
) -> Result<Proof, Memory>
    requires { FrameProof vars a.now c.now y.now by }
    ensures { IfOk result (λ p. FrameStep vars (of_kind kind a.now) a.now x.now y.now c.now p) }
{
    let rule = beside(alloc, vars, kind, a, x, y, c)?;
    Ok(rule.fill(1, by))
}

/// From what is left of the star to what is left of the conclusion, which is its hole: from the star to the conclusion.
pub fn opened(
    alloc: Global,
    work: &Work,
    kind: Kind,
    formula: &Formula,
    left: &Formula,
    rest: &Formula,
    moved: Proof,
    by: Proof,
) -> Result<Proof, Memory>
    requires few { length work.now.goal.vars < 2 ^ 32 }
    requires apart { IsApart work.now (of_kind kind formula.now) left.now moved }
    requires framed { FrameProof (length work.now.goal.vars) formula.now work.now.goal.concl rest.now by }
    ensures { IfOk result (λ p. Opens work.now left.now rest.now p) }
{
    let vars = work.goal.vars.len() as u32;
    let over = step(alloc, vars, kind, formula, left, rest, &work.goal.concl, by)?;
    let proof = compose(alloc, moved, over)?;
    Ok(proof)
}

//! What is last in hand comes in front of the star.

ghost use Rattle.std.specs.Prelude.{◌<◌, IfOk, length};
ghost use Rattle.pm_goal.specs.Left.{of_kind};
ghost use Rattle.pm_proof.specs.Trees.{entail};
ghost use Rattle.pm_star.specs.Levels.{right_side};
ghost use Rattle.pm_classes.specs.Entries.{HasProof};
ghost use Rattle.pm_action.specs.Acting.{IsHanded, IsLast};
ghost use Rattle.pm_intro.specs.Fronts.{IsBeside, IsFront};

use crate::hands::{of_kind, rest};
use crate::steps::beside;
use pm_action::last_place;
use pm_goal::{Held, Work, left_of_work};
use pm_logic::{Memory, copy};
use pm_proof::Proof;
use pm_star::{bring_front_held, compose};
use std::alloc::Global;

/// What `by` proves of the part, beside what is left of the star.
fn beside_rest(alloc: Global, work: &Work, held: &Held, by: Proof) -> Result<Proof, Memory>
    requires some { 0 < length work.now.held }
    requires handed { IsHanded work.now }
    requires last { IsLast work.now held.now }
    requires proof { HasProof (length work.now.goal.vars) (of_kind held.now.kind held.now.formula) (entail (length work.now.goal.vars) (of_kind held.now.kind held.now.formula) (right_side by)) by }
    ensures { IfOk result (IsBeside work.now held.now (right_side by)) }
{
    let vars = work.goal.vars.len() as u32;
    let rest = rest(alloc, work)?;
    let star = left_of_work(alloc, &rest)?;
    let part = of_kind(alloc, held.kind, &held.formula)?;
    let right = copy(alloc, &by.conclusion().right)?;
    let proof = beside(alloc, vars, &part, &right, &star, by)?;
    Ok(proof)
}

/// From the star to what `by` proves of its last part, beside what is left.
pub fn front(alloc: Global, work: &Work, held: &Held, by: Proof) -> Result<Proof, Memory>
    requires some { 0 < length work.now.held }
    requires handed { IsHanded work.now }
    requires last { IsLast work.now held.now }
    requires proof { HasProof (length work.now.goal.vars) (of_kind held.now.kind held.now.formula) (entail (length work.now.goal.vars) (of_kind held.now.kind held.now.formula) (right_side by)) by }
    ensures { IfOk result (IsFront work.now (right_side by)) }
{
    let fronted = bring_front_held(alloc, work, last_place(work))?;
    let step = beside_rest(alloc, work, held, by)?;
    let proof = compose(alloc, fronted, step)?;
    Ok(proof)
}

//! Actions that change the star and keep the conclusion.

ghost use Rattle.std.specs.Prelude.{◌≡◌, ◌<◌, ◌^◌, IfOk, length};
ghost use Rattle.pm_goal.specs.Left.{left_of_work};
ghost use Rattle.pm_proof.specs.Trees.{Hole, entail, conclusion};
ghost use Rattle.pm_table.specs.Limits.{resting};
ghost use Rattle.pm_action.specs.Meanings.{meaning};
ghost use Rattle.pm_action.specs.Acting.{MovesTo, StaysAs};

use crate::finishing::finish_one;
use pm_goal::{Goal, StepFault, Work, left_of, left_of_work};
use pm_logic::{Memory, copy};
use pm_proof::{Parts, Proof, hole};
use pm_rules::Entail;
use pm_star::compose;
use pm_table::Place;
use std::alloc::Global;

/// What the goal means, as a hole. The error is want of memory.
#[tactic(auto, unfolding(pm_goal::specs::Left::star_onto))]
pub fn wanted_of_goal(alloc: Global, goal: &Goal) -> Result<Proof, Memory>
    requires { length goal.now.vars < 2 ^ 32 }
    ensures { IfOk result (λ p. p ≡ Hole (meaning (resting goal.now))) }
{
    let vars = goal.vars.len() as u32;
    let left = left_of(alloc, goal)?;
    let right = copy(alloc, &goal.concl)?;
    hole(alloc, Entail { vars, left, right })
}

/// What the work means, as a hole. The error is want of memory.
pub fn wanted(alloc: Global, work: &Work) -> Result<Proof, Memory>
    requires { length work.now.goal.vars < 2 ^ 32 }
    ensures { IfOk result (λ p. p ≡ Hole (meaning work.now)) }
{
    let vars = work.goal.vars.len() as u32;
    let left = left_of_work(alloc, work)?;
    let right = copy(alloc, &work.goal.concl)?;
    hole(alloc, Entail { vars, left, right })
}

/// The new work in place of the old one, whose star entails the new one's by `moved`.
pub fn by_move(
    alloc: Global,
    work: &Work,
    new: Work,
    moved: Proof,
) -> Result<Parts<Place>, StepFault>
    requires few { length work.now.goal.vars < 2 ^ 32 }
    requires vars { length new.goal.vars ≡ length work.now.goal.vars }
    requires concl { new.goal.concl ≡ work.now.goal.concl }
    requires moved { conclusion moved ≡ entail (length work.now.goal.vars) (left_of_work work.now) (left_of_work new) }
    ensures { MovesTo work.now new moved result }
{
    let wanted = wanted(alloc, &new)?;
    let proof = compose(alloc, moved, wanted)?;
    finish_one(alloc, new, proof)
}

/// The new work in place of the old one, which means the same.
pub fn unmoved(alloc: Global, work: &Work, new: Work) -> Result<Parts<Place>, StepFault>
    requires few { length work.now.goal.vars < 2 ^ 32 }
    requires same { meaning new ≡ meaning work.now }
    ensures { StaysAs work.now new result }
{
    let proof = wanted(alloc, &new)?;
    finish_one(alloc, new, proof)
}

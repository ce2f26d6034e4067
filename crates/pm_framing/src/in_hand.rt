//! What is in hand is framed.

ghost use Rattle.std.specs.Prelude.{◌≡◌, ◌<◌, Some, IfOk, length};
ghost use Rattle.pm_goal.specs.Left.{of_kind, left_of_work};
ghost use Rattle.pm_table.specs.Limits.{all_nodes, work_formulas, limited};
ghost use Rattle.pm_table.specs.Terms as table;
ghost use Rattle.pm_action.specs.Acting.{Answers, IsHanded, IsLast};
ghost use Rattle.pm_frame.specs.Frames.{FrameAnswer};
ghost use Rattle.pm_hand.specs.Changed.{dropped};
ghost use Rattle.pm_framing.specs.Parting.{IsApart};

use crate::concluding::conclude;
use pm_action::{last, last_place, others, refuse_plain};
use pm_frame::{Framed, frame};
use pm_goal::{Held, Row, StepFault, Work, copy_goal};
use pm_logic::Memory;
use pm_proof::{Parts, Proof};
use pm_star::bring_front_held;
use pm_table::Place;
use std::alloc::Global;

/// The work without what is last in hand.
fn dropped(alloc: Global, work: &Work) -> Result<Work, Memory>
    requires { 0 < length work.now.held }
    ensures { IfOk result (λ w. w ≡ dropped work.now) }
{
    let goal = copy_goal(alloc, &work.goal)?;
    let held = others(alloc, work)?;
    Ok(Work { goal, held })
}

/// From the star to its last part beside the others.
fn last_apart(alloc: Global, work: &Work, held: &Held) -> Result<Proof, Memory>
    requires handed { IsHanded work.now }
    requires some { 0 < length work.now.held }
    requires last { IsLast work.now held.now }
    ensures { IfOk result (λ p. IsApart work.now (of_kind held.now.kind held.now.formula) (left_of_work (dropped work.now)) p) }
{
    let proof = bring_front_held(alloc, work, last_place(work))?;
    Ok(proof)
}

/// What framing leaves without what is last in hand is concluded.
fn frame_last(
    alloc: Global,
    work: &Work,
    held: &Held,
    framed: Framed,
) -> Result<Parts<Place>, StepFault>
    requires handed { IsHanded work.now }
    requires some { 0 < length work.now.held }
    requires last { IsLast work.now held.now }
    requires framed { FrameAnswer (length work.now.goal.vars) held.now.formula work.now.goal.concl (Some framed) }
    ensures { Answers (all_nodes (work_formulas work.now)) work.now (limited (table.concluding framed.rest (dropped work.now))) result }
{
    let moved = last_apart(alloc, work, held)?;
    let rest = dropped(alloc, work)?;
    conclude(alloc, work, held.kind, &held.formula, rest, moved, framed)
}

/// `$`: what is last in hand is framed, and dropped. The conclusion is what is left of it; where that is truth, the goal is
/// closed.
///
/// It is refused where nothing of the conclusion is framed, and where the work passes a limit. The error is the refusal, or
/// want of memory.
pub fn frame_held(alloc: Global, work: &Work) -> Result<Parts<Place>, StepFault>
    requires handed { IsHanded work.now }
    requires some { 0 < length work.now.held }
    ensures { Answers (all_nodes (work_formulas work.now)) work.now (limited (table.frame_held work.now)) result }
{
    let held = last(work);
    let vars = work.goal.vars.len() as u32;
    let found = frame(alloc, vars, &held.formula, &work.goal.concl)?;
    match found {
        Some(framed) => frame_last(alloc, work, held, framed),
        None => Err(refuse_plain(Row::NothingFramed)),
    }
}

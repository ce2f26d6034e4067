//! What is last in hand is dropped.

ghost use Rattle.std.specs.Prelude.{◌≡◌, ◌<◌, IfOk, length};
ghost use Rattle.pm_goal.specs.Left.{left_of_work};
ghost use Rattle.pm_star.specs.Stars.{work_parts, Moves};
ghost use Rattle.pm_table.specs.Limits.{all_nodes, work_formulas, limited};
ghost use Rattle.pm_table.specs.Destructs as table;
ghost use Rattle.pm_action.specs.Acting.{Answers, IsHanded};
ghost use Rattle.pm_hand.specs.Changed.{dropped};

use pm_action::{by_move, last_place, others};
use pm_goal::{StepFault, Work, copy_goal};
use pm_logic::Memory;
use pm_proof::{Parts, Proof};
use pm_star::drop_at_held;
use pm_table::Place;
use std::alloc::Global;

/// The work without what is last in hand.
fn dropped(alloc: Global, work: &Work) -> Result<Work, Memory>
    requires { 0 < length work.now.held }
    ensures { IfOk result (λ w. w ≡ dropped work.now) }
{
    let goal = copy_goal(alloc, &work.goal)?;
    let held = others(alloc, work)?;
    Ok(Work { goal, held })
}

/// From the star to the star without the last part.
fn without_last(alloc: Global, work: &Work) -> Result<Proof, Memory>
    requires handed { IsHanded work.now }
    requires some { 0 < length work.now.held }
    ensures { IfOk result (λ p. Moves (length work.now.goal.vars) (length (work_parts work.now)) (left_of_work work.now) (left_of_work (dropped work.now)) p) }
{
    let proof = drop_at_held(alloc, work, last_place(work))?;
    Ok(proof)
}

/// `_`: what is last in hand is dropped. It is refused where the work passes a limit.
pub fn drop_held(alloc: Global, work: &Work) -> Result<Parts<Place>, StepFault>
    requires handed { IsHanded work.now }
    requires some { 0 < length work.now.held }
    ensures { Answers (all_nodes (work_formulas work.now)) work.now (limited (table.drop_held work.now)) result }
{
    let new = dropped(alloc, work)?;
    let moved = without_last(alloc, work)?;
    by_move(alloc, work, new, moved)
}

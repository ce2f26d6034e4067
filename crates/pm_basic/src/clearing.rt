//! Hypotheses and facts that are dropped.

ghost use Rattle.std.specs.Prelude.{◌≡◌, ◌<◌, [], Some, IfOk, length};
ghost use Rattle.pm_goal.specs.Left.{left_of_work};
ghost use Rattle.pm_star.specs.Stars.{work_parts, Moves};
ghost use Rattle.pm_table.specs.Basic as table;
ghost use Rattle.pm_table.specs.Limits.{all_nodes, work_formulas, limited, resting};
ghost use Rattle.pm_table.specs.Stepping.{NamesDiffer};
ghost use Rattle.pm_table.specs.Works.{without_named};
ghost use Rattle.pm_action.specs.Acting.{Answers, IsHanded};
ghost use Rattle.pm_basic.specs.Named.{place_named};

use crate::finding::place_named;
use crate::steps::at_rest;
use pm_action::{by_move, facts_but, hyps_but, refuse};
use pm_goal::{Goal, Row, StepFault, Work, copy_goal};
use pm_logic::{Memory, Name};
use pm_proof::{Parts, Proof};
use pm_star::drop_at_held;
use pm_table::Place;
use std::alloc::Global;

/// The goal without the hypothesis or fact of this name.
pub fn without_named(alloc: Global, goal: &Goal, name: &Name) -> Result<Goal, Memory>
    requires { NamesDiffer goal.now }
    ensures { IfOk result (λ g. g ≡ without_named name.now goal.now) }
{
    let pures = facts_but(alloc, name, &goal.pures)?;
    let ints = hyps_but(alloc, name, &goal.ints)?;
    let spats = hyps_but(alloc, name, &goal.spats)?;
    let mut new = copy_goal(alloc, goal)?;
    new.pures = pures;
    new.ints = ints;
    new.spats = spats;
    Ok(new)
}

/// From the star to that of the goal without what has the name and stands at the place.
fn dropped(alloc: Global, work: &Work, name: &Name, place: u32) -> Result<Proof, Memory>
    requires handed { IsHanded work.now }
    requires nothing { work.now.held ≡ [] }
    requires place { place_named name.now work.now.goal ≡ Some place }
    ensures { IfOk result (λ p. Moves (length work.now.goal.vars) (length (work_parts work.now)) (left_of_work work.now) (left_of_work (resting (without_named name.now work.now.goal))) p) }
{
    let proof = drop_at_held(alloc, work, place)?;
    Ok(proof)
}

/// `iClear`: the hypothesis or fact is dropped.
///
/// It is refused where the goal has none of this name, and where the work passes a limit.
pub fn clear(alloc: Global, work: &Work, name: &Name) -> Result<Parts<Place>, StepFault>
    requires handed { IsHanded work.now }
    requires nothing { work.now.held ≡ [] }
    ensures { Answers (all_nodes (work_formulas work.now)) work.now (limited (table.on_goal (table.clear name.now) work.now)) result }
{
    let Some(place) = place_named(&work.goal, name) else {
        return Err(refuse(alloc, Row::NoSuchHypothesis, name));
    };
    let goal = without_named(alloc, &work.goal, name)?;
    let new = at_rest(alloc, goal);
    let moved = dropped(alloc, work, name, place)?;
    by_move(alloc, work, new, moved)
}

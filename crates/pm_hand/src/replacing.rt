//! What is last in hand becomes something else.

ghost use Rattle.std.specs.Prelude.{◌≡◌, ◌<◌, IfOk, length};
ghost use Rattle.pm_goal.specs.Left.{left_of_work, of_kind};
ghost use Rattle.pm_proof.specs.Trees.{conclusion};
ghost use Rattle.pm_star.specs.Stars.{work_parts, MovesBy};
ghost use Rattle.pm_action.specs.Acting.{IsHanded, IsLast, StaysAs};
ghost use Rattle.pm_hand.specs.Changed.{relast, last_says, Becomes};

use pm_action::{by_move, last_place, others, unmoved, with_held};
use pm_goal::{Held, Kind, StepFault, Work, copy_goal, copy_work};
use pm_logic::{Formula, Memory, copy, pers};
use pm_proof::{Parts, Proof};
use pm_star::replace_at_held;
use pm_table::Place;
use std::alloc::Global;

/// The work in which this formula of the kind is last in hand.
pub fn relast(alloc: Global, work: &Work, kind: Kind, formula: Formula) -> Result<Work, Memory>
    requires { 0 < length work.now.held }
    ensures { IfOk result (λ w. w ≡ relast work.now kind formula) }
{
    let goal = copy_goal(alloc, &work.goal)?;
    let held = others(alloc, work)?;
    with_held(goal, held, kind, formula)
}

/// A formula of the kind, as it stands in the star.
pub fn part_of(alloc: Global, kind: Kind, formula: &Formula) -> Result<Formula, Memory>
    ensures { IfOk result (λ f. f ≡ of_kind kind formula.now) }
{
    let formula = copy(alloc, formula)?;
    match kind {
        Kind::Int => pers(alloc, formula),
        Kind::Spat => Ok(formula),
    }
}

/// From the star to the star with what `by` proves of the last part in its place.
pub fn exchanged(
    alloc: Global,
    work: &Work,
    held: &Held,
    kind: Kind,
    formula: &Formula,
    by: Proof,
) -> Result<Proof, Memory>
    requires handed { IsHanded work.now }
    requires some { 0 < length work.now.held }
    requires last { IsLast work.now held.now }
    requires says { conclusion by ≡ last_says work.now held.now kind formula.now }
    ensures { IfOk result (λ p. MovesBy by (length work.now.goal.vars) (length (work_parts work.now)) (left_of_work work.now) (left_of_work (relast work.now kind formula.now)) p) }
{
    let proof = replace_at_held(alloc, work, last_place(work), by)?;
    Ok(proof)
}

/// The work in which what `by` proves of what is last in hand is there, in place of the old one.
pub fn become_one(
    alloc: Global,
    work: &Work,
    held: &Held,
    kind: Kind,
    formula: Formula,
    by: Proof,
) -> Result<Parts<Place>, StepFault>
    requires handed { IsHanded work.now }
    requires some { 0 < length work.now.held }
    requires last { IsLast work.now held.now }
    requires says { conclusion by ≡ last_says work.now held.now kind formula }
    ensures { Becomes work.now (relast work.now kind formula) by result }
{
    let moved = exchanged(alloc, work, held, kind, &formula, by)?;
    let new = relast(alloc, work, kind, formula)?;
    by_move(alloc, work, new, moved)
}

/// The same work, in place of the old one.
pub fn as_it_is(alloc: Global, work: &Work) -> Result<Parts<Place>, StepFault>
    requires { IsHanded work.now }
    ensures { StaysAs work.now work.now result }
{
    let new = copy_work(alloc, work)?;
    unmoved(alloc, work, new)
}

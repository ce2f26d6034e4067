//! Ends of actions that leave patterns to come, and the step from a star with one part more.

ghost use Rattle.std.specs.Prelude.{◌≡◌, ◌<◌, ◌^◌, [], ◌∷◌, IfOk, length};
ghost use Rattle.pm_goal.specs.Left.{left_of_work};
ghost use Rattle.pm_proof.specs.Trees.{entail, conclusion};
ghost use Rattle.pm_star.specs.Stars.{work_parts};
ghost use Rattle.pm_table.specs.declared.place.Place.TheVariants.{Current as current};
ghost use Rattle.pm_action.specs.Acting.{Ends};
ghost use Rattle.pm_intro.specs.Cases.{cases};
ghost use Rattle.pm_intro.specs.Ending.{OpensTo, HasMore, Reaches};

use pm_action::{finish, wanted};
use pm_goal::{StepFault, Work};
use pm_logic::{Formula, List, Memory};
use pm_proof::{Parts, Proof};
use pm_star::{compose, sink_held};
use pm_table::Place;
use std::alloc::Global;

/// The work, with whether each of the next two patterns acts on it.
pub fn open_place(alloc: Global, first: bool, second: bool, work: Work) -> Result<Place, Memory>
    ensures { IfOk result (λ p. p ≡ current (first ∷ second ∷ []) work) }
{
    let mut turns = List::new(alloc);
    turns.push(first)?;
    turns.push(second)?;
    Ok(Place::Current(turns, work))
}

/// The end with this work alone.
pub fn finish_open(
    alloc: Global,
    first: bool,
    second: bool,
    work: Work,
    proof: Proof,
) -> Result<Parts<Place>, StepFault>
    ensures { Ends (current (first ∷ second ∷ []) work ∷ []) proof result }
{
    let place = open_place(alloc, first, second, work)?;
    let mut places = List::new(alloc);
    places.push(place)?;
    finish(alloc, places, proof)
}

/// The end with these two places.
fn finish_both(
    alloc: Global,
    first: Place,
    second: Place,
    proof: Proof,
) -> Result<Parts<Place>, StepFault>
    ensures { Ends (first ∷ second ∷ []) proof result }
{
    let mut places = List::new(alloc);
    places.push(first)?;
    places.push(second)?;
    finish(alloc, places, proof)
}

/// The end with these two works, the first pattern for the first and the second for the second.
#[tactic(auto, using(crate::proofs::Answered::wants_memory))]
pub fn finish_cases(
    alloc: Global,
    left: Work,
    right: Work,
    proof: Proof,
) -> Result<Parts<Place>, StepFault>
    ensures { Ends (cases left right) proof result }
{
    let left = open_place(alloc, true, false, left)?;
    let right = open_place(alloc, false, true, right)?;
    finish_both(alloc, left, right, proof)
}

/// The new work in place of the old one, whose star entails the new one's by `moved`.
pub fn by_move_open(
    alloc: Global,
    work: &Work,
    first: bool,
    second: bool,
    new: Work,
    moved: Proof,
) -> Result<Parts<Place>, StepFault>
    requires few { length work.now.goal.vars < 2 ^ 32 }
    requires vars { length new.goal.vars ≡ length work.now.goal.vars }
    requires concl { new.goal.concl ≡ work.now.goal.concl }
    requires moved { conclusion moved ≡ entail (length work.now.goal.vars) (left_of_work work.now) (left_of_work new) }
    ensures { OpensTo (first ∷ second ∷ []) work.now new moved result }
{
    let wanted = wanted(alloc, &new)?;
    let proof = compose(alloc, moved, wanted)?;
    finish_open(alloc, first, second, new, proof)
}

/// From what the new work means, which is the hole: its conclusion, by the part beside the old work's star.
pub fn reach(alloc: Global, old: &Work, part: &Formula, new: &Work) -> Result<Proof, Memory>
    requires few { length old.now.goal.vars < 2 ^ 32 }
    requires vars { length new.now.goal.vars ≡ length old.now.goal.vars }
    requires small { length (work_parts old.now) < 2 ^ 32 }
    requires more { HasMore old.now part.now new.now }
    ensures { IfOk result (Reaches old.now part.now new.now) }
{
    let goal = &old.goal;
    let place = goal.pures.len() + goal.ints.len() + goal.spats.len() + old.held.len();
    let moved = sink_held(alloc, old, part, place as u32)?;
    let wanted = wanted(alloc, new)?;
    let proof = compose(alloc, moved, wanted)?;
    Ok(proof)
}

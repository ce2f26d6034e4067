//! Ends of these actions, under whatever tables their proofs are valid.

ghost use Rattle.std.specs.Prelude.{◌≡◌, ◌<◌, ◌^◌, ◌∷◌, [], length};
ghost use Rattle.pm_proof.specs.Trees.{entail, conclusion};
ghost use Rattle.pm_table.specs.declared.place.Place.TheVariants.{Current as current};
ghost use Rattle.pm_table.specs.Limits.{resting};
ghost use Rattle.pm_action.specs.Acting.{EndsOver};
ghost use Rattle.pm_loeb.specs.Spots.{Concludes};

use pm_action::{finish_over, wanted};
use pm_classes::One;
use pm_goal::{Goal, StepFault, Work, copy_goal};
use pm_logic::List;
use pm_proof::{Parts, Proof};
use pm_star::compose;
use pm_table::Place;
use std::alloc::Global;

/// The goal with nothing in hand.
pub fn at_rest(alloc: Global, goal: Goal) -> Work
    ensures { result ≡ resting goal }
{
    Work {
        goal,
        held: List::new(alloc),
    }
}

/// One work is left, for which nothing is to come.
pub fn finish_one_over(alloc: Global, work: Work, proof: Proof) -> Result<Parts<Place>, StepFault>
    ensures { EndsOver (current [] work ∷ []) proof result }
{
    let mut places = List::new(alloc);
    places.push(Place::Current(List::new(alloc), work))?;
    finish_over(alloc, places, proof)
}

/// The goal has the conclusion from which the proof proves the old one.
pub fn conclude(alloc: Global, work: &Work, entry: One) -> Result<Parts<Place>, StepFault>
    requires few { length work.now.goal.vars < 2 ^ 32 }
    requires nothing { work.now.held ≡ [] }
    requires says { conclusion entry.proof ≡ entail (length work.now.goal.vars) entry.formula work.now.goal.concl }
    ensures { Concludes work.now entry.formula entry.proof result }
{
    let One { formula, proof } = entry;
    let mut goal = copy_goal(alloc, &work.goal)?;
    goal.concl = formula;
    let made = at_rest(alloc, goal);
    let wanted = wanted(alloc, &made)?;
    let proof = compose(alloc, wanted, proof)?;
    finish_one_over(alloc, made, proof)
}

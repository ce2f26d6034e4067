//! An action on all places, from left to right.

ghost use Rattle.pm_table.specs.Running.{on_all};
ghost use Rattle.pm_sweep.specs.Acts.{at_place};
ghost use Rattle.pm_sweep.specs.Standing.{IsStanding, IsHandedToAll, Follows};

use crate::act::{Act, Turn};
use crate::lists::append;
use crate::placing::act_at;
use pm_goal::StepFault;
use pm_logic::List;
use pm_proof::Parts;
use pm_table::Place;
use std::alloc::Global;

/// The action in each place that `turn` says, before the next place: what it gives stands in the stead of the place, and its
/// proof at the place's hole.
///
/// The error is the first refusal, from left to right, or want of memory. The places and the proof are used up in any case.
pub fn sweep(
    alloc: Global,
    standing: Parts<Place>,
    turn: Turn,
    act: Act,
) -> Result<Parts<Place>, StepFault>
    requires standing { IsStanding standing }
    requires handed { IsHandedToAll act standing.goals }
    ensures { Follows standing (on_all (at_place turn act.entry) standing.goals) result }
{
    let Parts {
        goals: places,
        mut proof,
    } = standing;
    let mut new = List::new(alloc);
    for place in places.as_slice() {
        let Parts {
            goals,
            proof: inner,
        } = act_at(alloc, place, turn, act)?;
        proof = proof.fill(new.len() as u64, inner);
        append(alloc, goals, &mut new)?;
    }
    Ok(Parts { goals: new, proof })
}

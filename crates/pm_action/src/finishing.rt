//! Ends of actions: the new works within the limits, with the proof, or the first limit that one of them passes.

ghost use Rattle.std.specs.Prelude.{◌≡◌, ◌∷◌, [], IfOk};
ghost use Rattle.pm_table.specs.declared.place.Place.TheVariants.{Current as current};
ghost use Rattle.pm_table.specs.Limits as limits;
ghost use Rattle.pm_action.specs.Acting.{Ends, EndsOver};

use crate::limits::limit_row;
use crate::refusing::refuse_plain;
use pm_goal::{Row, StepFault, Work};
use pm_logic::{List, Memory};
use pm_proof::{Parts, Proof};
use pm_table::Place;
use std::alloc::Global;

/// The first limit that the work of a place passes.
fn place_row(alloc: Global, place: &Place) -> Result<Option<Row>, Memory>
    ensures { IfOk result (λ row. row ≡ limits.limit_row (limits.work_at place.now)) }
{
    match place {
        Place::Finished(goal) => limit_row(alloc, goal, &[]),
        Place::Current(_, work) => limit_row(alloc, &work.goal, work.held.as_slice()),
    }
}

/// The places with this proof, whatever tables it is valid under and however wide it is, or the first limit that one of them
/// passes, or want of memory.
pub fn finish_over(
    alloc: Global,
    places: List<Place>,
    proof: Proof,
) -> Result<Parts<Place>, StepFault>
    ensures { EndsOver places proof result }
{
    for place in places.as_slice() {
        if let Some(row) = place_row(alloc, place)? {
            return Err(refuse_plain(row));
        }
    }
    Ok(Parts {
        goals: places,
        proof,
    })
}

/// The places with this proof, or the first limit that one of them passes, or want of memory.
pub fn finish(alloc: Global, places: List<Place>, proof: Proof) -> Result<Parts<Place>, StepFault>
    ensures { Ends places proof result }
{
    finish_over(alloc, places, proof)
}

/// No work is left.
pub fn finish_closed(alloc: Global, proof: Proof) -> Result<Parts<Place>, StepFault>
    ensures { Ends [] proof result }
{
    finish(alloc, List::new(alloc), proof)
}

/// One work is left, for which nothing is to come.
pub fn finish_one(alloc: Global, work: Work, proof: Proof) -> Result<Parts<Place>, StepFault>
    ensures { Ends (current [] work ∷ []) proof result }
{
    let mut places = List::new(alloc);
    places.push(Place::Current(List::new(alloc), work))?;
    finish(alloc, places, proof)
}

/// Two works are left, for which nothing is to come.
pub fn finish_two(
    alloc: Global,
    first: Work,
    second: Work,
    proof: Proof,
) -> Result<Parts<Place>, StepFault>
    ensures { Ends (current [] first ∷ current [] second ∷ []) proof result }
{
    let mut places = List::new(alloc);
    places.push(Place::Current(List::new(alloc), first))?;
    places.push(Place::Current(List::new(alloc), second))?;
    finish(alloc, places, proof)
}

//! An action on one place.

ghost use Rattle.std.specs.Prelude.{◌≡◌, ◌++◌, ◌∷◌, [], IfOk, replicate, false};
ghost use Rattle.pm_proof.specs.Trees.{Hole};
ghost use Rattle.pm_table.specs.declared.place.Place.TheVariants.{Current as current};
ghost use Rattle.pm_table.specs.Running.{stays, once, keeping_turns};
ghost use Rattle.pm_table.specs.Running as table;
ghost use Rattle.pm_table.specs.Limits.{work_at};
ghost use Rattle.pm_action.specs.Meanings.{meaning_at};
ghost use Rattle.pm_sweep.specs.Acts.{at_place, action_of, handed_to};
ghost use Rattle.pm_sweep.specs.Standing.{IsSound, IsSoundWork, IsHandedTo, Replaces, ReplacesWork, Stands};

use crate::act::{Act, Turn};
use crate::lists::{push_turns, with_turns};
use crate::performing::perform;
use pm_action::{wanted, wanted_of_goal};
use pm_goal::{StepFault, Work, copy_goal, copy_work};
use pm_logic::{List, Memory};
use pm_proof::{Parts, Proof};
use pm_table::Place;
use std::alloc::Global;

fn copy_turns(alloc: Global, turns: &[bool]) -> Result<List<bool>, Memory>
    ensures { IfOk result (λ copy. copy ≡ turns.now) }
{
    let mut out = List::new(alloc);
    push_turns(turns, &mut out)?;
    Ok(out)
}

fn copy_place(alloc: Global, place: &Place) -> Result<Place, Memory>
    ensures { IfOk result (λ copy. copy ≡ place.now) }
{
    match place {
        Place::Finished(goal) => {
            let goal = copy_goal(alloc, goal)?;
            Ok(Place::Finished(goal))
        }
        Place::Current(turns, work) => {
            let turns = copy_turns(alloc, turns.as_slice())?;
            let work = copy_work(alloc, work)?;
            Ok(Place::Current(turns, work))
        }
    }
}

/// A hole for what the place means.
fn wanted_at(alloc: Global, place: &Place) -> Result<Proof, Memory>
    requires { IsSound place.now }
    ensures { IfOk result (λ p. p ≡ Hole (meaning_at place.now)) }
{
    match place {
        Place::Finished(goal) => wanted_of_goal(alloc, goal),
        Place::Current(_, work) => wanted(alloc, work),
    }
}

/// The place alone, with the proof.
fn alone(alloc: Global, place: Place, proof: Proof) -> Result<Parts<Place>, Memory>
    ensures { IfOk result (λ s. (s.goals ≡ place ∷ []) × (s.proof ≡ proof)) }
{
    let mut goals = List::new(alloc);
    goals.push(place)?;
    Ok(Parts { goals, proof })
}

/// The place as it is, and a hole for what it means. The error is want of memory.
pub fn stay(alloc: Global, place: &Place) -> Result<Parts<Place>, StepFault>
    requires { IsSound place.now }
    ensures { Replaces place.now (stays place.now) result }
{
    let copied = copy_place(alloc, place)?;
    let proof = wanted_at(alloc, place)?;
    let parts = alone(alloc, copied, proof)?;
    Ok(parts)
}

/// The work for which nothing is to come, and a hole for what it means: from there actions run. The error is want of memory.
pub fn begin(alloc: Global, work: &Work) -> Result<Parts<Place>, Memory>
    requires { IsSoundWork work.now }
    ensures { IfOk result (λ s. (s.goals ≡ current [] work.now ∷ []) × Stands work.now 0 s) }
{
    let copied = copy_work(alloc, work)?;
    let proof = wanted(alloc, work)?;
    let parts = alone(alloc, Place::Current(List::new(alloc), copied), proof)?;
    Ok(parts)
}

/// The turns when so many parts of a pattern that is for other works come before these.
fn passed(alloc: Global, parts: usize, turns: &[bool]) -> Result<List<bool>, Memory>
    ensures { IfOk result (λ l. l ≡ replicate parts false ++ turns.now) }
{
    let mut out = List::new(alloc);
    for _ in 0..parts {
        out.push(false)?;
    }
    push_turns(turns, &mut out)?;
    Ok(out)
}

/// The work, whose turn it isn't.
fn pass(alloc: Global, work: &Work, parts: usize, turns: &[bool]) -> Result<Parts<Place>, StepFault>
    requires { IsSoundWork work.now }
    ensures { Replaces (current (false ∷ turns.now) work.now) (stays (current (replicate parts false ++ turns.now) work.now)) result }
{
    let turns = passed(alloc, parts, turns)?;
    let copied = copy_work(alloc, work)?;
    let proof = wanted(alloc, work)?;
    let parts = alone(alloc, Place::Current(turns, copied), proof)?;
    Ok(parts)
}

/// The action on the work, with the turns that are still to come.
fn acted(alloc: Global, work: &Work, turns: &[bool], act: Act) -> Result<Parts<Place>, StepFault>
    requires sound { IsSoundWork work.now }
    requires handed { IsHandedTo act work.now }
    ensures { ReplacesWork work.now (keeping_turns turns.now (once (handed_to act.entry) (action_of act.entry) work.now)) result }
{
    let Parts { goals, proof } = perform(alloc, work, act)?;
    let goals = with_turns(alloc, goals, turns)?;
    Ok(Parts { goals, proof })
}

/// The action on the work, if it is its turn.
fn in_turn(alloc: Global, place: &Place, parts: usize, act: Act) -> Result<Parts<Place>, StepFault>
    requires sound { IsSound place.now }
    requires handed { IsHandedTo act (work_at place.now) }
    ensures { Replaces place.now (table.in_turn parts (once (handed_to act.entry) (action_of act.entry)) place.now) result }
{
    match place {
        Place::Finished(_) => stay(alloc, place),
        Place::Current(turns, work) => match turns.as_slice() {
            [] => stay(alloc, place),
            [true, rest @ ..] => acted(alloc, work, rest, act),
            [false, rest @ ..] => pass(alloc, work, parts, rest),
        },
    }
}

/// The action on the place, if it is for it.
pub fn act_at(alloc: Global, place: &Place, turn: Turn, act: Act) -> Result<Parts<Place>, StepFault>
    requires sound { IsSound place.now }
    requires handed { IsHandedTo act (work_at place.now) }
    ensures { Replaces place.now (at_place turn act.entry place.now) result }
{
    match turn {
        Turn::Next(parts) => in_turn(alloc, place, parts, act),
        Turn::Every => match place {
            Place::Finished(_) => stay(alloc, place),
            Place::Current(turns, work) => acted(alloc, work, turns.as_slice(), act),
        },
    }
}

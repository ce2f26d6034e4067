//! Lists of places.

ghost use Rattle.std.specs.Prelude.{◌≡◌, ◌++◌, reverse, map, IfOk, OnOk};
ghost use Rattle.pm_table.specs.Running.{turns_behind, with_turn};

use pm_logic::{List, Memory};
use pm_table::Place;
use std::alloc::Global;

/// The places, the last one first.
pub fn turned(alloc: Global, places: List<Place>) -> Result<List<Place>, Memory>
    ensures { IfOk result (λ back. reverse back ≡ places) }
{
    let mut places = places;
    let mut back = List::new(alloc);
    while let Some(place) = places.pop() {
        back.push(place)?;
    }
    Ok(back)
}

/// Adds places behind others, the last one first.
fn pour(back: List<Place>, out: &mut List<Place>) -> Result<(), Memory>
    ensures { OnOk result (out.new ≡ out.old ++ reverse back) }
{
    let mut back = back;
    while let Some(place) = back.pop() {
        out.push(place)?;
    }
    Ok(())
}

/// Adds places behind others. The error is want of memory, and some of them may have been added then.
pub fn append(alloc: Global, more: List<Place>, out: &mut List<Place>) -> Result<(), Memory>
    ensures { OnOk result (out.new ≡ out.old ++ more) }
{
    let back = turned(alloc, more)?;
    pour(back, out)
}

/// Adds the turns that are still to come behind those of the list.
pub fn push_turns(turns: &[bool], out: &mut List<bool>) -> Result<(), Memory>
    ensures { OnOk result (out.new ≡ out.old ++ turns.now) }
{
    for turn in turns {
        out.push(*turn)?;
    }
    Ok(())
}

/// The place with the turns that are still to come behind its own.
fn place_with(place: Place, turns: &[bool]) -> Result<Place, Memory>
    ensures { IfOk result (λ p. p ≡ turns_behind turns.now place) }
{
    match place.into_parts() {
        Err(goal) => Ok(Place::Finished(goal)),
        Ok((own, work)) => {
            let mut own = own;
            push_turns(turns, &mut own)?;
            Ok(Place::Current(own, work))
        }
    }
}

/// Adds places, the last one first, with the turns that are still to come behind their own.
fn pour_with(back: List<Place>, turns: &[bool], out: &mut List<Place>) -> Result<(), Memory>
    ensures { OnOk result (out.new ≡ out.old ++ map (turns_behind turns.now) (reverse back)) }
{
    let mut back = back;
    while let Some(place) = back.pop() {
        out.push(place_with(place, turns)?)?;
    }
    Ok(())
}

/// The places with the turns that are still to come behind their own. The error is want of memory.
pub fn with_turns(alloc: Global, places: List<Place>, turns: &[bool]) -> Result<List<Place>, Memory>
    ensures { IfOk result (λ ps. ps ≡ map (turns_behind turns.now) places) }
{
    let back = turned(alloc, places)?;
    let mut out = List::new(alloc);
    pour_with(back, turns, &mut out)?;
    Ok(out)
}

/// The place with a turn more, which is the next one.
fn place_next(alloc: Global, place: Place) -> Result<Place, Memory>
    ensures { IfOk result (λ p. p ≡ with_turn place) }
{
    match place.into_parts() {
        Err(goal) => Ok(Place::Finished(goal)),
        Ok((turns, work)) => {
            let mut own = List::new(alloc);
            own.push(true)?;
            push_turns(turns.as_slice(), &mut own)?;
            Ok(Place::Current(own, work))
        }
    }
}

/// Adds places, the last one first, each with a turn more, which is the next one.
fn pour_next(alloc: Global, back: List<Place>, out: &mut List<Place>) -> Result<(), Memory>
    ensures { OnOk result (out.new ≡ out.old ++ map with_turn (reverse back)) }
{
    let mut back = back;
    while let Some(place) = back.pop() {
        out.push(place_next(alloc, place)?)?;
    }
    Ok(())
}

/// The places, each with a turn more, which is the next one. The error is want of memory.
pub fn with_turn_each(alloc: Global, places: List<Place>) -> Result<List<Place>, Memory>
    ensures { IfOk result (λ ps. ps ≡ map with_turn places) }
{
    let back = turned(alloc, places)?;
    let mut out = List::new(alloc);
    pour_next(alloc, back, &mut out)?;
    Ok(out)
}

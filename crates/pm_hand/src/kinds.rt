//! What is last in hand becomes spatial or intuitionistic.

ghost use Rattle.std.specs.Prelude.{◌≡◌, ◌<◌, Some, length};
ghost use Rattle.pm_goal.specs.declared.work.Kind.TheVariants as kind;
ghost use Rattle.pm_classes.specs.Entries.{PersistentAnswer};
ghost use Rattle.pm_table.specs.Limits.{all_nodes, work_formulas, limited};
ghost use Rattle.pm_table.specs.Destructs as table;
ghost use Rattle.pm_action.specs.Acting.{Answers, IsHanded, IsLast};
ghost use Rattle.pm_hand.specs.Changed.{relast, boxing, GivesOne};

use crate::replacing::{as_it_is, become_one};
use crate::steps::unboxed;
use pm_action::{last, refuse_plain};
use pm_classes::{One, into_persistent};
use pm_goal::{Held, Kind, Row, StepFault, Work};
use pm_logic::copy;
use pm_proof::Parts;
use pm_table::Place;
use std::alloc::Global;

/// An intuitionistic one becomes spatial.
fn unbox(alloc: Global, work: &Work, held: &Held) -> Result<Parts<Place>, StepFault>
    requires handed { IsHanded work.now }
    requires some { 0 < length work.now.held }
    requires last { IsLast work.now held.now }
    requires int { held.now.kind ≡ kind.Int }
    ensures { GivesOne work.now (relast work.now kind.Spat held.now.formula) result }
{
    let vars = work.goal.vars.len() as u32;
    let by = unboxed(alloc, vars, &held.formula)?;
    let formula = copy(alloc, &held.formula)?;
    become_one(alloc, work, held, Kind::Spat, formula, by)
}

/// `-#p`: what is last in hand becomes spatial. It is refused where the work passes a limit.
pub fn to_spat(alloc: Global, work: &Work) -> Result<Parts<Place>, StepFault>
    requires handed { IsHanded work.now }
    requires some { 0 < length work.now.held }
    ensures { Answers (all_nodes (work_formulas work.now)) work.now (limited (table.to_spat work.now)) result }
{
    let held = last(work);
    match held.kind {
        Kind::Int => unbox(alloc, work, held),
        Kind::Spat => as_it_is(alloc, work),
    }
}

/// What is last in hand becomes the formula of its entry, as intuitionistic.
fn enter(alloc: Global, work: &Work, held: &Held, entry: One) -> Result<Parts<Place>, StepFault>
    requires handed { IsHanded work.now }
    requires some { 0 < length work.now.held }
    requires last { IsLast work.now held.now }
    requires spat { held.now.kind ≡ kind.Spat }
    requires entry { PersistentAnswer (length work.now.goal.vars) held.now.formula (Some entry) }
    ensures { Answers (all_nodes (work_formulas work.now)) work.now (limited (boxing work.now held.now)) result }
{
    let One { formula, proof } = entry;
    become_one(alloc, work, held, Kind::Int, formula, proof)
}

/// A spatial one that is persistent becomes intuitionistic.
fn box_it(alloc: Global, work: &Work, held: &Held) -> Result<Parts<Place>, StepFault>
    requires handed { IsHanded work.now }
    requires some { 0 < length work.now.held }
    requires last { IsLast work.now held.now }
    requires spat { held.now.kind ≡ kind.Spat }
    ensures { Answers (all_nodes (work_formulas work.now)) work.now (limited (boxing work.now held.now)) result }
{
    let vars = work.goal.vars.len() as u32;
    let found = into_persistent(alloc, vars, &held.formula)?;
    match found {
        Some(entry) => enter(alloc, work, held, entry),
        None => Err(refuse_plain(Row::NotPersistent)),
    }
}

/// `#p`: what is last in hand becomes intuitionistic.
///
/// It is refused where it is spatial and not persistent, and where the work passes a limit.
pub fn to_int(alloc: Global, work: &Work) -> Result<Parts<Place>, StepFault>
    requires handed { IsHanded work.now }
    requires some { 0 < length work.now.held }
    ensures { Answers (all_nodes (work_formulas work.now)) work.now (limited (table.to_int work.now)) result }
{
    let held = last(work);
    match held.kind {
        Kind::Int => as_it_is(alloc, work),
        Kind::Spat => box_it(alloc, work, held),
    }
}

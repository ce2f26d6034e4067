//! Hypotheses and facts that come into hand.

ghost use Rattle.std.specs.Prelude.{◌≡◌, ◌+◌, ◌*◌, ◌<◌, IfOk, length};
ghost use Rattle.pm_logic.specs.declared.formula.Formula.TheVariants.{Pure as Fact};
ghost use Rattle.pm_goal.specs.declared.work.Kind.TheVariants as kind;
ghost use Rattle.pm_goal.specs.Left.{left_of_work, of_kind};
ghost use Rattle.pm_star.specs.Stars.{parts, part_at, shared, work_parts, Moves};
ghost use Rattle.pm_table.specs.Limits.{all_nodes, work_formulas, limited};
ghost use Rattle.pm_table.specs.Works.{hold};
ghost use Rattle.pm_table.specs.Terms as table;
ghost use Rattle.pm_action.specs.Acting.{Answers, IsHanded};
ghost use Rattle.pm_hand.specs.Looking.{IsAt, IsHypAt};
ghost use Rattle.pm_hand.specs.Changed.{less, Brings, GivesOne};

use crate::holding::{boxed_last, count, hold};
use crate::looking::{Lookup, look_up, without_named};
use crate::replacing::part_of;
use pm_action::{by_move, refuse};
use pm_goal::{Kind, Row, StepFault, Work, copy_work};
use pm_logic::{Formula, Memory, Name, Pure, copy_pure};
use pm_proof::{Parts, Proof};
use pm_star::{carry_held, compose, duplicate_held, sink_held};
use pm_table::Place;
use std::alloc::Global;

/// The work without the hypothesis or fact of the name.
fn less(alloc: Global, work: &Work, name: &Name) -> Result<Work, Memory>
    requires { IsHanded work.now }
    ensures { IfOk result (λ w. w ≡ less work.now name.now) }
{
    let mut out = copy_work(alloc, work)?;
    out.goal = without_named(alloc, &work.goal, name)?;
    Ok(out)
}

/// From the star to the star with the part of the name at its end.
fn carried(
    alloc: Global,
    work: &Work,
    name: &Name,
    place: u32,
    kind: Kind,
    formula: &Formula,
) -> Result<Proof, Memory>
    requires handed { IsHanded work.now }
    requires at { IsAt work.now.goal name.now place (of_kind kind formula.now) }
    ensures { IfOk result (λ p. Moves (length work.now.goal.vars) (length (work_parts work.now)) (left_of_work work.now) (left_of_work (hold kind formula.now (less work.now name.now))) p) }
{
    let proof = carry_held(alloc, work, place, count(work) - 1)?;
    Ok(proof)
}

/// The hypothesis is held in its place.
fn take_hyp(
    alloc: Global,
    work: &Work,
    name: &Name,
    place: u32,
    kind: Kind,
    formula: Formula,
) -> Result<Parts<Place>, StepFault>
    requires handed { IsHanded work.now }
    requires at { IsAt work.now.goal name.now place (of_kind kind formula) }
    ensures { GivesOne work.now (hold kind formula (less work.now name.now)) result }
{
    let moved = carried(alloc, work, name, place, kind, &formula)?;
    let new = hold(less(alloc, work, name)?, kind, formula)?;
    by_move(alloc, work, new, moved)
}

/// From the star to the star with the fact of the name in hand.
fn fact_carried(
    alloc: Global,
    work: &Work,
    name: &Name,
    place: u32,
    pure: &Pure,
) -> Result<Proof, Memory>
    requires handed { IsHanded work.now }
    requires at { IsAt work.now.goal name.now place (Fact pure.now) }
    ensures { IfOk result (λ p. Brings work.now (hold kind.Int (Fact pure.now) (less work.now name.now)) (200 * length (work_parts work.now) + 302) p) }
{
    let fact = Formula::Pure(copy_pure(alloc, pure)?);
    let first = carried(alloc, work, name, place, Kind::Spat, &fact)?;
    let rest = less(alloc, work, name)?;
    let second = boxed_last(alloc, &rest, pure)?;
    let proof = compose(alloc, first, second)?;
    Ok(proof)
}

/// The fact is held in its place.
fn take_fact(
    alloc: Global,
    work: &Work,
    name: &Name,
    place: u32,
    pure: Pure,
) -> Result<Parts<Place>, StepFault>
    requires handed { IsHanded work.now }
    requires at { IsAt work.now.goal name.now place (Fact pure) }
    ensures { GivesOne work.now (hold kind.Int (Fact pure) (less work.now name.now)) result }
{
    let moved = fact_carried(alloc, work, name, place, &pure)?;
    let new = hold(less(alloc, work, name)?, Kind::Int, Formula::Pure(pure))?;
    by_move(alloc, work, new, moved)
}

/// The hypothesis or fact of the name leaves its context and is held, last in hand: a spatial one as such, another as
/// intuitionistic.
///
/// It is refused where there is none, and where the work passes a limit.
pub fn take(alloc: Global, work: &Work, name: &Name) -> Result<Parts<Place>, StepFault>
    requires { IsHanded work.now }
    ensures { Answers (all_nodes (work_formulas work.now)) work.now (limited (table.take name.now work.now)) result }
{
    let found = look_up(alloc, &work.goal, name)?;
    match found {
        Some(Lookup::Hyp(place, kind, formula)) => {
            take_hyp(alloc, work, name, place, kind, formula)
        }
        Some(Lookup::Fact(place, pure)) => take_fact(alloc, work, name, place, pure),
        None => Err(refuse(alloc, Row::NoSuchHypothesis, name)),
    }
}

/// From the star to the star with the part at the place once more at its end.
fn doubled(
    alloc: Global,
    work: &Work,
    place: u32,
    kind: Kind,
    formula: &Formula,
) -> Result<Proof, Memory>
    requires handed { IsHanded work.now }
    requires before { place < length (shared work.now.goal) }
    requires at { part_at (parts work.now.goal) place ≡ of_kind kind formula.now }
    ensures { IfOk result (λ p. Brings work.now (hold kind formula.now work.now) (200 * length (work_parts work.now) + 201) p) }
{
    let first = duplicate_held(alloc, work, place)?;
    let part = part_of(alloc, kind, formula)?;
    let second = sink_held(alloc, work, &part, count(work))?;
    let proof = compose(alloc, first, second)?;
    Ok(proof)
}

/// The intuitionistic hypothesis is held, too.
fn lend_int(
    alloc: Global,
    work: &Work,
    place: u32,
    formula: Formula,
) -> Result<Parts<Place>, StepFault>
    requires handed { IsHanded work.now }
    requires before { place < length (shared work.now.goal) }
    requires at { part_at (parts work.now.goal) place ≡ of_kind kind.Int formula }
    ensures { GivesOne work.now (hold kind.Int formula work.now) result }
{
    let moved = doubled(alloc, work, place, Kind::Int, &formula)?;
    let new = hold(copy_work(alloc, work)?, Kind::Int, formula)?;
    by_move(alloc, work, new, moved)
}

/// From the star to the star with the fact at the place in hand, too.
fn fact_doubled(alloc: Global, work: &Work, place: u32, pure: &Pure) -> Result<Proof, Memory>
    requires handed { IsHanded work.now }
    requires before { place < length (shared work.now.goal) }
    requires at { part_at (parts work.now.goal) place ≡ Fact pure.now }
    ensures { IfOk result (λ p. Brings work.now (hold kind.Int (Fact pure.now) work.now) (300 * length (work_parts work.now) + 403) p) }
{
    let fact = Formula::Pure(copy_pure(alloc, pure)?);
    let first = doubled(alloc, work, place, Kind::Spat, &fact)?;
    let second = boxed_last(alloc, work, pure)?;
    let proof = compose(alloc, first, second)?;
    Ok(proof)
}

/// The fact is held, too.
fn lend_fact(alloc: Global, work: &Work, place: u32, pure: Pure) -> Result<Parts<Place>, StepFault>
    requires handed { IsHanded work.now }
    requires before { place < length (shared work.now.goal) }
    requires at { part_at (parts work.now.goal) place ≡ Fact pure }
    ensures { GivesOne work.now (hold kind.Int (Fact pure) work.now) result }
{
    let moved = fact_doubled(alloc, work, place, &pure)?;
    let new = hold(copy_work(alloc, work)?, Kind::Int, Formula::Pure(pure))?;
    by_move(alloc, work, new, moved)
}

/// A spatial hypothesis is taken, and an intuitionistic one stays.
fn lend_hyp(
    alloc: Global,
    work: &Work,
    name: &Name,
    place: u32,
    kind: Kind,
    formula: Formula,
) -> Result<Parts<Place>, StepFault>
    requires handed { IsHanded work.now }
    requires at { IsHypAt work.now.goal name.now place kind formula }
    ensures { Answers (all_nodes (work_formulas work.now)) work.now (limited (table.lend name.now work.now)) result }
{
    match kind {
        Kind::Spat => take_hyp(alloc, work, name, place, Kind::Spat, formula),
        Kind::Int => lend_int(alloc, work, place, formula),
    }
}

/// The hypothesis or fact of the name is held, last in hand: a spatial one leaves its context, and others stay in theirs
/// and are held as intuitionistic.
///
/// It is refused where there is none, and where the work passes a limit.
pub fn lend(alloc: Global, work: &Work, name: &Name) -> Result<Parts<Place>, StepFault>
    requires { IsHanded work.now }
    ensures { Answers (all_nodes (work_formulas work.now)) work.now (limited (table.lend name.now work.now)) result }
{
    let found = look_up(alloc, &work.goal, name)?;
    match found {
        Some(Lookup::Hyp(place, kind, formula)) => {
            lend_hyp(alloc, work, name, place, kind, formula)
        }
        Some(Lookup::Fact(place, pure)) => lend_fact(alloc, work, place, pure),
        None => Err(refuse(alloc, Row::NoSuchHypothesis, name)),
    }
}

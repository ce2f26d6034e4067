//! Two spatial hypotheses become one, which is held.

ghost use Rattle.std.specs.Prelude.{◌≡◌, ◌<◌, ◌^◌, [], ◌∷◌, false, IfOk, length};
ghost use Rattle.std.specs.Str.{bytes_eq};
ghost use Rattle.pm_logic.specs.declared.formula.Formula.TheVariants.{Pure as Fact};
ghost use Rattle.pm_logic.specs.declared.formula.Formula.TheViews as view;
ghost use Rattle.pm_logic.specs.declared.formula.Pure.TheVariants as pure;
ghost use Rattle.pm_goal.specs.declared.work.Kind.TheVariants as kind;
ghost use Rattle.pm_proof.specs.Trees.{entail, conclusion};
ghost use Rattle.pm_star.specs.Levels.{right_side};
ghost use Rattle.pm_classes.specs.Classes.{combine};
ghost use Rattle.pm_classes.specs.Entries.{CombinesTo};
ghost use Rattle.pm_table.specs.Basic.{on_goal};
ghost use Rattle.pm_table.specs.Destructs as destructs;
ghost use Rattle.pm_table.specs.Heap as table;
ghost use Rattle.pm_table.specs.Limits.{all_nodes, work_formulas, hypotheses, limited};
ghost use Rattle.pm_table.specs.Works.{hold};
ghost use Rattle.pm_action.specs.Acting.{Answers, IsActed, IsHanded};
ghost use Rattle.pm_hand.specs.Changed.{less};
ghost use Rattle.pm_heap.specs.Found.{IsSpatialAt};
ghost use Rattle.pm_heap.specs.Taken.{TakesBoth, Becomes, IsAbsurd};
ghost use Rattle.pm_heap.specs.Combined.{combining, two_row, AreTwo, AreTaken, Together};

use crate::finding::{Spatial, find_spatial, is_hypothesis, names_hypothesis};
use crate::steps::absurd_beside;
use crate::taking::{carried, count, hold, less};
use pm_action::{by_move, finish_closed, refuse};
use pm_classes::{One, combine};
use pm_goal::{Goal, Row, StepFault, Work, left_of_work};
use pm_logic::{Formula, MAX_LINE_LEVELS, Memory, Name, Pure, depth};
use pm_proof::{Parts, Proof};
use pm_star::{bring_front_held, compose, merge_held};
use pm_table::Place;
use std::alloc::Global;

/// Two spatial hypotheses, the work with the first in hand, and the work without both.
#[derive(Drop)]
pub struct Two {
    pub first: Spatial,
    pub second: Spatial,
    pub middle: Work,
    pub rest: Work,
}

fn is_falsehood(f: &Formula) -> bool
    ensures { result ≡ destructs.is_falsehood f.now }
{
    matches!(f, Formula::Pure(Pure::False))
}

/// Refused by the first name that isn't one of a spatial hypothesis, and where both are the same.
fn are_two(alloc: Global, goal: &Goal, a: &Name, b: &Name) -> Result<(), StepFault>
    ensures { AreTwo goal.now a.now b.now result }
{
    if !is_hypothesis(goal, a) {
        return Err(refuse(alloc, Row::NoSuchHypothesis, a));
    }
    if !is_hypothesis(goal, b) {
        return Err(refuse(alloc, Row::NoSuchHypothesis, b));
    }
    if !names_hypothesis(&goal.spats, a) {
        return Err(refuse(alloc, Row::NotSpatial, a));
    }
    if !names_hypothesis(&goal.spats, b) {
        return Err(refuse(alloc, Row::NotSpatial, b));
    }
    if b.bytes() == a.bytes() {
        return Err(refuse(alloc, Row::NameGivenTwice, b));
    }
    Ok(())
}

/// From the star to the star with both in hand.
fn both_carried(alloc: Global, work: &Work, a: &Name, b: &Name, two: &Two) -> Result<Proof, Memory>
    requires handed { IsHanded work.now }
    requires two { AreTaken work.now a.now b.now two.now }
    ensures { IfOk result (TakesBoth work.now (hold kind.Spat two.now.second.formula (hold kind.Spat two.now.first.formula two.now.rest))) }
{
    let one = carried(alloc, work, a, two.first.place, &two.first.formula)?;
    let second = &two.second;
    let more = carried(alloc, &two.middle, b, second.place, &second.formula)?;
    let proof = compose(alloc, one, more)?;
    Ok(proof)
}

/// From the star with both in hand to the star with what `by` proves of them.
fn merged(alloc: Global, rest: &Work, f: &Formula, g: &Formula, by: Proof) -> Result<Proof, Memory>
    requires vars { length rest.now.goal.vars < 2 ^ 32 }
    requires few { hypotheses rest.now < 2 ^ 32 }
    requires by { conclusion by ≡ entail (length rest.now.goal.vars) (view.Sep f.now g.now) (right_side by) }
    ensures { IfOk result (Together rest.now f.now g.now by) }
{
    let one = hold(alloc, rest, f)?;
    let both = hold(alloc, &one, g)?;
    let proof = merge_held(alloc, &both, count(rest), by)?;
    Ok(proof)
}

/// From the star to the star with what both are together in hand.
fn combined(
    alloc: Global,
    work: &Work,
    a: &Name,
    b: &Name,
    two: &Two,
    formula: &Formula,
    by: Proof,
) -> Result<Proof, Memory>
    requires handed { IsHanded work.now }
    requires two { AreTaken work.now a.now b.now two.now }
    requires by { CombinesTo (length work.now.goal.vars) two.now.first.formula two.now.second.formula formula.now (record { formula = formula.now; proof = by }) }
    ensures { IfOk result (Becomes work.now (hold kind.Spat formula.now two.now.rest)) }
{
    let taken = both_carried(alloc, work, a, b, two)?;
    let f = &two.first.formula;
    let g = &two.second.formula;
    let together = merged(alloc, &two.rest, f, g, by)?;
    let proof = compose(alloc, taken, together)?;
    Ok(proof)
}

/// From the star with falsehood in hand to the conclusion.
fn absurd(alloc: Global, rest: &Work, new: &Work, concl: &Formula) -> Result<Proof, Memory>
    requires vars { length rest.now.goal.vars < 2 ^ 32 }
    requires few { hypotheses rest.now < 2 ^ 32 }
    requires new { new.now ≡ hold kind.Spat (Fact pure.False) rest.now }
    ensures { IfOk result (IsAbsurd rest.now concl.now) }
{
    let vars = rest.goal.vars.len() as u32;
    let front = bring_front_held(alloc, new, count(rest))?;
    let star = left_of_work(alloc, rest)?;
    let end = absurd_beside(alloc, vars, &star, concl)?;
    let proof = compose(alloc, front, end)?;
    Ok(proof)
}

/// From the star to the conclusion, where both together are falsehood.
fn closing(
    alloc: Global,
    work: &Work,
    a: &Name,
    b: &Name,
    two: &Two,
    new: &Work,
    moved: Proof,
) -> Result<Proof, Memory>
    requires handed { IsHanded work.now }
    requires two { AreTaken work.now a.now b.now two.now }
    requires new { new.now ≡ hold kind.Spat (Fact pure.False) two.now.rest }
    requires moved { Becomes work.now new.now moved }
    ensures { IfOk result (IsActed (all_nodes (work_formulas work.now)) work.now []) }
{
    let end = absurd(alloc, &two.rest, new, &work.goal.concl)?;
    let proof = compose(alloc, moved, end)?;
    Ok(proof)
}

/// What both are together is held, or closes the goal.
fn hold_combined(
    alloc: Global,
    work: &Work,
    a: &Name,
    b: &Name,
    two: &Two,
    formula: &Formula,
    moved: Proof,
) -> Result<Parts<Place>, StepFault>
    requires handed { IsHanded work.now }
    requires two { AreTaken work.now a.now b.now two.now }
    requires moved { Becomes work.now (hold kind.Spat formula.now two.now.rest) moved }
    ensures { Answers (all_nodes (work_formulas work.now)) work.now (limited (combining work.now a.now b.now formula.now)) result }
{
    let new = hold(alloc, &two.rest, formula)?;
    if is_falsehood(formula) {
        let proof = closing(alloc, work, a, b, two, &new, moved)?;
        return finish_closed(alloc, proof);
    }
    by_move(alloc, work, new, moved)
}

/// What both are together is held, or closes the goal.
fn combine_both(
    alloc: Global,
    work: &Work,
    a: &Name,
    b: &Name,
    two: &Two,
) -> Result<Parts<Place>, StepFault>
    requires handed { IsHanded work.now }
    requires two { AreTaken work.now a.now b.now two.now }
    ensures { Answers (all_nodes (work_formulas work.now)) work.now (limited (combining work.now a.now b.now (combine two.now.first.formula two.now.second.formula))) result }
{
    let first = &two.first.formula;
    if depth(first) > MAX_LINE_LEVELS {
        return Err(StepFault::Memory);
    }
    let vars = work.goal.vars.len() as u32;
    let entry = combine(alloc, vars, first, &two.second.formula)?;
    let One { formula, proof } = entry;
    let moved = combined(alloc, work, a, b, two, &formula, proof)?;
    hold_combined(alloc, work, a, b, two, &formula, moved)
}

/// What both are together is held, or closes the goal, where they are found.
#[tactic(auto, using(pm_basic::proofs::Ending::no_memory))]
fn combine_second(
    alloc: Global,
    work: &Work,
    a: &Name,
    b: &Name,
    one: &Work,
    first: Spatial,
    second: Spatial,
) -> Result<Parts<Place>, StepFault>
    requires handed { IsHanded work.now }
    requires nothing { work.now.held ≡ [] }
    requires other { bytes_eq b.now a.now ≡ false }
    requires one { one.now ≡ less work.now a.now }
    requires first { IsSpatialAt work.now.goal a.now first.place first.formula }
    requires second { IsSpatialAt one.now.goal b.now second.place second.formula }
    ensures { Answers (all_nodes (work_formulas work.now)) work.now (limited (two_row a.now b.now work.now.goal)) result }
{
    let middle = hold(alloc, one, &first.formula)?;
    let rest = less(alloc, one, b)?;
    let two = Two {
        first,
        second,
        middle,
        rest,
    };
    combine_both(alloc, work, a, b, &two)
}

/// The same, where the first is found.
#[tactic(auto, using(pm_basic::proofs::Ending::no_memory))]
fn combine_first(
    alloc: Global,
    work: &Work,
    a: &Name,
    b: &Name,
    first: Spatial,
) -> Result<Parts<Place>, StepFault>
    requires handed { IsHanded work.now }
    requires nothing { work.now.held ≡ [] }
    requires other { bytes_eq b.now a.now ≡ false }
    requires first { IsSpatialAt work.now.goal a.now first.place first.formula }
    ensures { Answers (all_nodes (work_formulas work.now)) work.now (limited (two_row a.now b.now work.now.goal)) result }
{
    let one = less(alloc, work, a)?;
    let found = find_spatial(alloc, &one.goal, b)?;
    match found {
        Some(second) => combine_second(alloc, work, a, b, &one, first, second),
        None => Err(refuse(alloc, Row::NoSuchHypothesis, b)),
    }
}

/// The same, of two names that differ.
fn combine_named(alloc: Global, work: &Work, a: &Name, b: &Name) -> Result<Parts<Place>, StepFault>
    requires handed { IsHanded work.now }
    requires nothing { work.now.held ≡ [] }
    requires other { bytes_eq b.now a.now ≡ false }
    ensures { Answers (all_nodes (work_formulas work.now)) work.now (limited (two_row a.now b.now work.now.goal)) result }
{
    let found = find_spatial(alloc, &work.goal, a)?;
    match found {
        Some(first) => combine_first(alloc, work, a, b, first),
        None => Err(refuse(alloc, Row::NoSuchHypothesis, a)),
    }
}

/// `iCombine`: both spatial hypotheses leave the context, and what they are together is held, spatial. Two points-to of one
/// location become one of both fractions, beside the equation of their values where these differ, and all else is a star; where
/// together they are falsehood the goal is closed.
///
/// It is refused by the first name that is no hypothesis, else by the first that is no spatial one, else where both names are the
/// same, and where the work passes a limit.
pub fn combine_held(
    alloc: Global,
    work: &Work,
    a: &Name,
    b: &Name,
) -> Result<Parts<Place>, StepFault>
    requires handed { IsHanded work.now }
    requires nothing { work.now.held ≡ [] }
    ensures { Answers (all_nodes (work_formulas work.now)) work.now (limited (on_goal (table.combine_held a.now b.now) work.now)) result }
{
    match are_two(alloc, &work.goal, a, b) {
        Ok(()) => combine_named(alloc, work, a, b),
        Err(fault) => Err(fault),
    }
}

//! What is last in hand gets a name.

ghost use Rattle.std.specs.Prelude.{◌≡◌, ◌+◌, ◌<◌, ◌^◌, IfOk, true, length};
ghost use Rattle.pm_goal.specs.Left.{left_of_work};
ghost use Rattle.pm_star.specs.Stars.{work_parts, Moves};
ghost use Rattle.pm_table.specs.Limits.{all_nodes, work_formulas, limited};
ghost use Rattle.pm_table.specs.Works.{fits, with_hyp};
ghost use Rattle.pm_table.specs.Destructs as table;
ghost use Rattle.pm_action.specs.Acting.{Answers, IsHanded, IsLast};
ghost use Rattle.pm_hand.specs.Changed.{named, end_of, GivesOne};

use pm_action::{by_move, fresh_name, is_free, last, last_place, others, refuse};
use pm_goal::{Goal, Held, Hyp, Kind, Row, StepFault, Work, copy_goal};
use pm_logic::{Memory, Name, copy, copy_name};
use pm_proof::{Parts, Proof};
use pm_star::carry_held;
use pm_table::Place;
use std::alloc::Global;

/// The goal with a hypothesis of the kind more.
#[tactic(auto, using(crate::proofs::Free::free_int, crate::proofs::Free::free_spat))]
fn push(goal: Goal, kind: Kind, hyp: Hyp) -> Result<Goal, Memory>
    requires { fits goal hyp.name ≡ true }
    ensures { IfOk result (λ g. g ≡ with_hyp kind hyp.name hyp.formula goal) }
{
    let mut goal = goal;
    match kind {
        Kind::Int => goal.ints.push(hyp)?,
        Kind::Spat => goal.spats.push(hyp)?,
    }
    Ok(goal)
}

/// The work in which what is last in hand has the name.
fn named(alloc: Global, work: &Work, held: &Held, name: &Name) -> Result<Work, Memory>
    requires some { 0 < length work.now.held }
    requires free { fits work.now.goal name.now ≡ true }
    ensures { IfOk result (λ w. w ≡ named work.now held.now name.now) }
{
    let goal = copy_goal(alloc, &work.goal)?;
    let formula = copy(alloc, &held.formula)?;
    let name = copy_name(alloc, name)?;
    let goal = push(goal, held.kind, Hyp { name, formula })?;
    let held = others(alloc, work)?;
    Ok(Work { goal, held })
}

/// Where a new hypothesis of the kind stands in the star.
fn end_of(goal: &Goal, kind: Kind) -> u32
    requires { length goal.now.pures + length goal.now.ints + length goal.now.spats < 2 ^ 32 }
    ensures { result ≡ end_of kind goal.now }
{
    let shared = goal.pures.len() + goal.ints.len();
    match kind {
        Kind::Int => shared as u32,
        Kind::Spat => (shared + goal.spats.len()) as u32,
    }
}

/// From the star to the star with the last part at the end of its context.
fn to_context(alloc: Global, work: &Work, held: &Held, name: &Name) -> Result<Proof, Memory>
    requires handed { IsHanded work.now }
    requires some { 0 < length work.now.held }
    requires last { IsLast work.now held.now }
    ensures { IfOk result (λ p. Moves (length work.now.goal.vars) (length (work_parts work.now)) (left_of_work work.now) (left_of_work (named work.now held.now name.now)) p) }
{
    let place = end_of(&work.goal, held.kind);
    let proof = carry_held(alloc, work, last_place(work), place)?;
    Ok(proof)
}

/// The work in which what is last in hand has the name, in place of the old one.
fn give_name(
    alloc: Global,
    work: &Work,
    held: &Held,
    name: &Name,
) -> Result<Parts<Place>, StepFault>
    requires handed { IsHanded work.now }
    requires some { 0 < length work.now.held }
    requires last { IsLast work.now held.now }
    requires free { fits work.now.goal name.now ≡ true }
    ensures { GivesOne work.now (named work.now held.now name.now) result }
{
    let new = named(alloc, work, held, name)?;
    let moved = to_context(alloc, work, held, name)?;
    by_move(alloc, work, new, moved)
}

/// `H`: what is last in hand gets the name, last in the context of its kind.
///
/// It is refused where the name is in use, or is `_` and digits, and where the work passes a limit.
pub fn name_held(alloc: Global, work: &Work, name: &Name) -> Result<Parts<Place>, StepFault>
    requires handed { IsHanded work.now }
    requires some { 0 < length work.now.held }
    ensures { Answers (all_nodes (work_formulas work.now)) work.now (limited (table.name_held name.now work.now)) result }
{
    let held = last(work);
    if !is_free(&work.goal, name) {
        return Err(refuse(alloc, Row::NameInUse, name));
    }
    give_name(alloc, work, held, name)
}

/// `?`: what is last in hand gets a name that the goal doesn't have, as by `name_held`.
pub fn name_fresh(alloc: Global, work: &Work) -> Result<Parts<Place>, StepFault>
    requires handed { IsHanded work.now }
    requires some { 0 < length work.now.held }
    ensures { Answers (all_nodes (work_formulas work.now)) work.now (limited (table.name_fresh work.now)) result }
{
    let name = fresh_name(alloc, &work.goal)?;
    name_held(alloc, work, &name)
}

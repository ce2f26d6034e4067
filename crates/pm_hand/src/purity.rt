//! What is last in hand becomes a fact.

ghost use Rattle.std.specs.Prelude.{◌≡◌, ◌<◌, IfOk, Some, true, length};
ghost use Rattle.pm_logic.specs.declared.formula.Formula.TheVariants.{Pure as Assert};
ghost use Rattle.pm_goal.specs.declared.work.Kind.TheVariants as kind;
ghost use Rattle.pm_goal.specs.Left.{left_of_work, of_kind};
ghost use Rattle.pm_proof.specs.Trees.{conclusion};
ghost use Rattle.pm_classes.specs.Entries.{IntoPureAnswer};
ghost use Rattle.pm_table.specs.Limits.{all_nodes, work_formulas, limited};
ghost use Rattle.pm_table.specs.Works.{fits, with_fact};
ghost use Rattle.pm_table.specs.Destructs as table;
ghost use Rattle.pm_action.specs.Acting.{Answers, IsHanded, IsLast};
ghost use Rattle.pm_star.specs.Stars.{work_parts, Moves};
ghost use Rattle.pm_hand.specs.Changed.{relast, known, last_says, BecomesOne, LeadsBy};

use crate::replacing::{exchanged, part_of, relast};
use pm_action::{by_move, fresh_name, is_free, last, last_place, others, refuse, refuse_plain};
use pm_classes::{OnePure, into_pure};
use pm_goal::{Fact, Goal, Held, Kind, Row, StepFault, Work, copy_goal};
use pm_logic::{Formula, Memory, Name, Pure, copy_name, copy_pure};
use pm_proof::{Parts, Proof};
use pm_star::{carry_held, compose};
use pm_table::Place;
use std::alloc::Global;

/// The goal with a fact more.
#[tactic(auto, using(crate::proofs::Free::free_fact))]
fn push(goal: Goal, fact: Fact) -> Result<Goal, Memory>
    requires { fits goal fact.name ≡ true }
    ensures { IfOk result (λ g. g ≡ with_fact fact.name fact.pure goal) }
{
    let mut goal = goal;
    goal.pures.push(fact)?;
    Ok(goal)
}

/// The work in which what is last in hand is a fact of the name.
fn known(alloc: Global, work: &Work, name: &Name, pure: &Pure) -> Result<Work, Memory>
    requires some { 0 < length work.now.held }
    requires free { fits work.now.goal name.now ≡ true }
    ensures { IfOk result (λ w. w ≡ known work.now name.now pure.now) }
{
    let goal = copy_goal(alloc, &work.goal)?;
    let name = copy_name(alloc, name)?;
    let pure = copy_pure(alloc, pure)?;
    let goal = push(goal, Fact { name, pure })?;
    let held = others(alloc, work)?;
    Ok(Work { goal, held })
}

/// From the star with the fact as its last part to the star with the fact among the facts.
fn to_facts(alloc: Global, work: &Work, name: &Name, pure: &Pure) -> Result<Proof, Memory>
    requires handed { IsHanded work.now }
    requires some { 0 < length work.now.held }
    ensures { IfOk result (λ p. Moves (length work.now.goal.vars) (length (work_parts work.now)) (left_of_work (relast work.now kind.Spat (Assert pure.now))) (left_of_work (known work.now name.now pure.now)) p) }
{
    let fact = Formula::Pure(copy_pure(alloc, pure)?);
    let middle = relast(alloc, work, Kind::Spat, fact)?;
    let place = middle.goal.pures.len() as u32;
    let proof = carry_held(alloc, &middle, last_place(&middle), place)?;
    Ok(proof)
}

/// From the star to the star in which what `by` proves of the last part is a fact.
fn moved(
    alloc: Global,
    work: &Work,
    held: &Held,
    name: &Name,
    pure: &Pure,
    by: Proof,
) -> Result<Proof, Memory>
    requires handed { IsHanded work.now }
    requires some { 0 < length work.now.held }
    requires last { IsLast work.now held.now }
    requires says { conclusion by ≡ last_says work.now held.now kind.Spat (Assert pure.now) }
    ensures { IfOk result (λ p. LeadsBy work.now (known work.now name.now pure.now) by p) }
{
    let fact = Formula::Pure(copy_pure(alloc, pure)?);
    let first = exchanged(alloc, work, held, Kind::Spat, &fact, by)?;
    let second = to_facts(alloc, work, name, pure)?;
    let proof = compose(alloc, first, second)?;
    Ok(proof)
}

/// The work in which what `by` proves of what is last in hand is a fact of the name, in place of the old one.
fn make_known(
    alloc: Global,
    work: &Work,
    held: &Held,
    name: &Name,
    pure: &Pure,
    by: Proof,
) -> Result<Parts<Place>, StepFault>
    requires handed { IsHanded work.now }
    requires some { 0 < length work.now.held }
    requires last { IsLast work.now held.now }
    requires free { fits work.now.goal name.now ≡ true }
    requires says { conclusion by ≡ last_says work.now held.now kind.Spat (Assert pure.now) }
    ensures { BecomesOne work.now (known work.now name.now pure.now) by result }
{
    let proof = moved(alloc, work, held, name, pure, by)?;
    let new = known(alloc, work, name, pure)?;
    by_move(alloc, work, new, proof)
}

/// The entry of what is last in hand, as it stands in the star.
fn entry_of(alloc: Global, work: &Work, held: &Held) -> Result<Option<OnePure>, Memory>
    requires { IsHanded work.now }
    ensures { IfOk result (λ r. IntoPureAnswer (length work.now.goal.vars) (of_kind held.now.kind held.now.formula) r) }
{
    let part = part_of(alloc, held.kind, &held.formula)?;
    let vars = work.goal.vars.len() as u32;
    into_pure(alloc, vars, &part)
}

/// What is last in hand becomes the fact of its entry.
fn enter(
    alloc: Global,
    work: &Work,
    held: &Held,
    name: &Name,
    entry: OnePure,
) -> Result<Parts<Place>, StepFault>
    requires handed { IsHanded work.now }
    requires some { 0 < length work.now.held }
    requires last { IsLast work.now held.now }
    requires free { fits work.now.goal name.now ≡ true }
    requires entry { IntoPureAnswer (length work.now.goal.vars) (of_kind held.now.kind held.now.formula) (Some entry) }
    ensures { Answers (all_nodes (work_formulas work.now)) work.now (limited (table.to_pure name.now work.now)) result }
{
    let OnePure { pure, proof } = entry;
    make_known(alloc, work, held, name, &pure, proof)
}

/// `%H`: what is last in hand becomes a fact of the name, last of the facts.
///
/// It is refused where it isn't pure, where the name is in use, or is `_` and digits, and where the work passes a limit.
pub fn to_pure(alloc: Global, work: &Work, name: &Name) -> Result<Parts<Place>, StepFault>
    requires handed { IsHanded work.now }
    requires some { 0 < length work.now.held }
    ensures { Answers (all_nodes (work_formulas work.now)) work.now (limited (table.to_pure name.now work.now)) result }
{
    let held = last(work);
    let found = entry_of(alloc, work, held)?;
    let Some(entry) = found else {
        return Err(refuse_plain(Row::NotPure));
    };
    if !is_free(&work.goal, name) {
        return Err(refuse(alloc, Row::NameInUse, name));
    }
    enter(alloc, work, held, name, entry)
}

/// `%?`: what is last in hand becomes a fact of a name that the goal doesn't have, as by `to_pure`.
pub fn to_pure_fresh(alloc: Global, work: &Work) -> Result<Parts<Place>, StepFault>
    requires handed { IsHanded work.now }
    requires some { 0 < length work.now.held }
    ensures { Answers (all_nodes (work_formulas work.now)) work.now (limited (table.to_pure_fresh work.now)) result }
{
    let name = fresh_name(alloc, &work.goal)?;
    to_pure(alloc, work, &name)
}

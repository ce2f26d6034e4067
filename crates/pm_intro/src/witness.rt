//! What is last in hand is taken apart into a variable and a body.

ghost use Rattle.std.specs.Prelude.{◌≡◌, ◌<◌, ◌+◌, [], ◌∷◌, IfOk, length};
ghost use Rattle.pm_goal.specs.Left.{of_kind};
ghost use Rattle.pm_logic.specs.declared.formula.Formula.TheViews as view;
ghost use Rattle.pm_logic.specs.Substitution.{shift_of};
ghost use Rattle.pm_table.specs.Limits.{all_nodes, work_formulas, limited};
ghost use Rattle.pm_table.specs.Destructs as table;
ghost use Rattle.pm_action.specs.Acting.{Answers, IsHanded, IsLast};
ghost use Rattle.pm_intro.specs.Hands.{hand_at, rest, HasBody};
ghost use Rattle.pm_intro.specs.Variables.{lifted, opened, IsOpened, IsUnder};
ghost use Rattle.pm_intro.specs.Ending.{HasMore};

use crate::ending::{finish_open, reach};
use crate::fronts::front;
use crate::hands::{of_kind, rest};
use crate::steps::{applied, curried};
use crate::variables::lift;
use pm_action::{is_free, refuse};
use pm_classes::One;
use pm_goal::{Held, Kind, Row, StepFault, Work, left_of_work};
use pm_logic::{Formula, Memory, Name, copy, ex, shift, wand};
use pm_proof::{Parts, Proof};
use pm_schemes::eliminate;
use pm_star::compose;
use pm_table::Place;
use std::alloc::Global;

/// What is left of the work, with the variable.
fn lifted_rest(alloc: Global, work: &Work, name: &Name) -> Result<Work, Memory>
    requires handed { IsHanded work.now }
    requires some { 0 < length work.now.held }
    ensures { IfOk result (λ w. w ≡ lifted name.now (shift_of work.now.goal.concl) (rest work.now)) }
{
    let rest = rest(alloc, work)?;
    let concl = shift(alloc, &work.goal.concl)?;
    let lifted = lift(alloc, &rest, name, concl)?;
    Ok(lifted)
}

/// The work in which the body is held.
fn opened(
    alloc: Global,
    work: &Work,
    kind: Kind,
    name: &Name,
    body: &Formula,
) -> Result<Work, Memory>
    requires handed { IsHanded work.now }
    requires some { 0 < length work.now.held }
    ensures { IfOk result (λ w. w ≡ opened work.now kind name.now body.now) }
{
    let mut new = lifted_rest(alloc, work, name)?;
    let formula = copy(alloc, body)?;
    new.held.push(Held { kind, formula })?;
    Ok(new)
}

/// From what the new work means, which is the hole, in one variable more: the part entails the wand from what is left of the
/// star to the conclusion.
fn under(
    alloc: Global,
    work: &Work,
    name: &Name,
    part: &Formula,
    new: &Work,
) -> Result<Proof, Memory>
    requires handed { IsHanded work.now }
    requires some { 0 < length work.now.held }
    requires more { HasMore (lifted name.now (shift_of work.now.goal.concl) (rest work.now)) part.now new.now }
    requires vars { length new.now.goal.vars ≡ length work.now.goal.vars + 1 }
    requires concl { new.now.goal.concl ≡ shift_of work.now.goal.concl }
    ensures { IfOk result (IsUnder work.now part.now new.now) }
{
    let vars = work.goal.vars.len() as u32;
    let lifted = lifted_rest(alloc, work, name)?;
    let reached = reach(alloc, &lifted, part, new)?;
    let star = left_of_work(alloc, &lifted)?;
    let proof = curried(alloc, vars + 1, part, &star, &new.goal.concl, reached)?;
    Ok(proof)
}

/// `a -∗ b`
fn curried_goal(alloc: Global, a: &Formula, b: &Formula) -> Result<Formula, Memory>
    ensures { IfOk result (λ f. f ≡ view.Wand a.now b.now) }
{
    let a = copy(alloc, a)?;
    let b = copy(alloc, b)?;
    wand(alloc, a, b)
}

/// `∃ a`
fn existential(alloc: Global, a: &Formula) -> Result<Formula, Memory>
    ensures { IfOk result (λ f. f ≡ view.Ex a.now) }
{
    let a = copy(alloc, a)?;
    ex(alloc, a)
}

/// From that: the existential of the part entails the wand, so that it goes with what is left of the star.
fn closed(
    alloc: Global,
    work: &Work,
    part: &Formula,
    new: &Work,
    under: Proof,
) -> Result<Proof, Memory>
    requires handed { IsHanded work.now }
    requires some { 0 < length work.now.held }
    requires more { HasMore (lifted [] (shift_of work.now.goal.concl) (rest work.now)) part.now new.now }
    requires vars { length new.now.goal.vars ≡ length work.now.goal.vars + 1 }
    requires concl { new.now.goal.concl ≡ shift_of work.now.goal.concl }
    requires under { IsUnder work.now part.now new.now under }
    ensures { IfOk result (IsOpened work.now part.now new.now) }
{
    let vars = work.goal.vars.len() as u32;
    let rest = rest(alloc, work)?;
    let star = left_of_work(alloc, &rest)?;
    let goal = curried_goal(alloc, &star, &work.goal.concl)?;
    let step = eliminate(alloc, vars, part, &goal)?;
    let all = existential(alloc, part)?;
    let inner = step.fill(0, under);
    let proof = applied(alloc, vars, &all, &star, &work.goal.concl, inner)?;
    Ok(proof)
}

/// From what the new work means, which is the hole: the conclusion, by the existential beside what is left of the star.
fn by_body(
    alloc: Global,
    work: &Work,
    kind: Kind,
    name: &Name,
    body: &Formula,
    new: &Work,
) -> Result<Proof, Memory>
    requires handed { IsHanded work.now }
    requires some { 0 < length work.now.held }
    requires new { new.now ≡ opened work.now kind name.now body.now }
    ensures { IfOk result (IsOpened work.now (of_kind kind body.now) new.now) }
{
    let part = of_kind(alloc, kind, body)?;
    let under = under(alloc, work, name, &part, new)?;
    let proof = closed(alloc, work, &part, new, under)?;
    Ok(proof)
}

/// The goal gains the variable, and the body is held.
#[tactic(auto, using(crate::proofs::Answered::wants_memory))]
pub fn body_held(
    alloc: Global,
    work: &Work,
    held: &Held,
    name: &Name,
    entry: One,
) -> Result<Parts<Place>, StepFault>
    requires handed { IsHanded work.now }
    requires some { 0 < length work.now.held }
    requires last { IsLast work.now held.now }
    requires says { HasBody held.now.kind (length work.now.goal.vars) held.now.formula entry }
    ensures { Answers (all_nodes (work_formulas work.now)) work.now (limited (table.body_held work.now (hand_at work.now held.now) name.now entry.formula)) result }
{
    if !is_free(&work.goal, name) {
        return Err(refuse(alloc, Row::NameInUse, name));
    }
    let One { formula, proof } = entry;
    let new = opened(alloc, work, held.kind, name, &formula)?;
    let opened = by_body(alloc, work, held.kind, name, &formula, &new)?;
    let front = front(alloc, work, held, proof)?;
    let proof = compose(alloc, front, opened)?;
    finish_open(alloc, false, true, new, proof)
}

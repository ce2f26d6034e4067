//! What is last in hand is applied to the conclusion.

ghost use Rattle.std.specs.Prelude.{◌≡◌, ◌<◌, ◌^◌, Some, IfOk, List, length};
ghost use Rattle.pm_logic.specs.declared.formula.Formula.{Formula as Tree};
ghost use Rattle.pm_goal.specs.Left.{left_of};
ghost use Rattle.pm_table.specs.Limits.{all_nodes, work_formulas, limited};
ghost use Rattle.pm_table.specs.Terms as table;
ghost use Rattle.pm_action.specs.Acting.{Answers, IsHanded, IsLast};
ghost use Rattle.pm_apply.specs.Reaching.{shared_star, Reaches, ReachAnswer, IsInContext, IsOpened};

use crate::context::last_beside;
use crate::premises::{goals_for, shared_of};
use crate::reaching::{Reached, reach};
use crate::rules::in_context;
use pm_action::{finish, last, refuse_plain};
use pm_goal::{Held, Row, StepFault, Work, left_of};
use pm_logic::{Formula, Memory};
use pm_proof::{Parts, Proof};
use pm_star::{boxed, compose};
use pm_table::Place;
use std::alloc::Global;

/// From the proof in the context: what is last in hand beside the star of the goal entails the conclusion.
fn beside_goal(
    alloc: Global,
    work: &Work,
    held: &Held,
    whole: &Formula,
    shared: &Formula,
    by: Proof,
) -> Result<Proof, Memory>
    requires few { length work.now.goal.vars < 2 ^ 32 }
    requires last { IsLast work.now held.now }
    requires whole { whole.now ≡ left_of work.now.goal }
    requires shared { shared.now ≡ shared_star work.now.goal }
    requires by { (ps : List Tree) × Reaches (length work.now.goal.vars) whole.now shared.now work.now.goal.concl held.now.formula ps by }
    ensures { IfOk result (IsInContext work.now held.now by) }
{
    let vars = work.goal.vars.len() as u32;
    let boxed = boxed(alloc, &work.goal)?;
    let rule = in_context(
        alloc,
        vars,
        held.kind,
        whole,
        shared,
        &held.formula,
        &work.goal.concl,
    )?;
    Ok(rule.fill(0, boxed).fill(0, by))
}

/// What the work means, from what the goals of the premises mean.
fn opened(
    alloc: Global,
    work: &Work,
    held: &Held,
    whole: &Formula,
    shared: &Formula,
    by: Proof,
) -> Result<Proof, Memory>
    requires handed { IsHanded work.now }
    requires last { IsLast work.now held.now }
    requires whole { whole.now ≡ left_of work.now.goal }
    requires shared { shared.now ≡ shared_star work.now.goal }
    requires by { (ps : List Tree) × Reaches (length work.now.goal.vars) whole.now shared.now work.now.goal.concl held.now.formula ps by }
    ensures { IfOk result (IsOpened work.now held.now by) }
{
    let inner = beside_goal(alloc, work, held, whole, shared, by)?;
    let moved = last_beside(alloc, work, held)?;
    let proof = compose(alloc, moved, inner)?;
    Ok(proof)
}

/// The premises are left as goals.
fn give(
    alloc: Global,
    work: &Work,
    held: &Held,
    whole: &Formula,
    shared: &Formula,
    reached: Reached,
) -> Result<Parts<Place>, StepFault>
    requires handed { IsHanded work.now }
    requires last { IsLast work.now held.now }
    requires whole { whole.now ≡ left_of work.now.goal }
    requires shared { shared.now ≡ shared_star work.now.goal }
    requires reached { ReachAnswer (length work.now.goal.vars) whole.now shared.now work.now.goal.concl held.now.formula (Some reached) }
    ensures { Answers (all_nodes (work_formulas work.now)) work.now (limited (table.apply work.now)) result }
{
    let Reached { premises, proof } = reached;
    let places = goals_for(alloc, &work.goal, premises)?;
    let whole_proof = opened(alloc, work, held, whole, shared, proof)?;
    finish(alloc, places, whole_proof)
}

/// What is last in hand is `P1 -∗ … -∗ Pn -∗ C`, where C is the conclusion and n the least number from 0: a goal for each of
/// the premises, in order, the last one with all spatial hypotheses, the others with none. What else is in hand is lost. Each
/// wand may be whatever is one by its class.
///
/// It is refused where the conclusion isn't reached, and where a premise's goal passes a limit. The error is the refusal, or
/// want of memory.
pub fn apply(alloc: Global, work: &Work) -> Result<Parts<Place>, StepFault>
    requires handed { IsHanded work.now }
    requires some { 0 < length work.now.held }
    ensures { Answers (all_nodes (work_formulas work.now)) work.now (limited (table.apply work.now)) result }
{
    let held = last(work);
    let vars = work.goal.vars.len() as u32;
    let whole = left_of(alloc, &work.goal)?;
    let shared = shared_of(alloc, &work.goal)?;
    let found = reach(
        alloc,
        vars,
        &whole,
        &shared,
        &work.goal.concl,
        &held.formula,
    )?;
    match found {
        Some(reached) => give(alloc, work, held, &whole, &shared, reached),
        None => Err(refuse_plain(Row::ConclusionNotReached)),
    }
}

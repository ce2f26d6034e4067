//! Steps of a proof.

ghost use Rattle.std.specs.Prelude.{◌≡◌, map, IfOk};
ghost use Rattle.pm_table.specs.Limits.{resting};
ghost use Rattle.pm_table.specs.Directives.{goal_at};
ghost use Rattle.pm_directives.specs.Built.{IsBuilt};
ghost use Rattle.pm_sweep.specs.Standing.{IsSoundWork};
ghost use Rattle.pm_directives.specs.Steps.{FitsGoal, Steps};

use crate::directives::run;
use pm_goal::{Goal, Lemmas, StepFault, Work, copy_goal};
use pm_logic::{List, Memory, Preds};
use pm_proof::Parts;
use pm_script::Directive;
use pm_sweep::begin;
use pm_table::Place;
use std::alloc::Global;

/// The goal of a place.
fn goal_of(alloc: Global, place: &Place) -> Result<Goal, Memory>
    ensures { IfOk result (λ goal. goal ≡ goal_at place.now) }
{
    match place {
        Place::Finished(goal) => copy_goal(alloc, goal),
        Place::Current(_, work) => copy_goal(alloc, &work.goal),
    }
}

/// The goals of places.
fn goals_of(alloc: Global, places: &[Place]) -> Result<List<Goal>, Memory>
    ensures { IfOk result (λ gs. gs ≡ map goal_at places.now) }
{
    let mut out = List::new(alloc);
    for place in places {
        out.push(goal_of(alloc, place)?)?;
    }
    Ok(out)
}

/// The directive, on the goal: the goals that the directive table gives, with a proof of what the old goal means from what
/// they mean, in order; or the row that refuses it, or want of memory. The goal is as before in any case.
///
/// The proof has at most as many rules as the table's sum says, no formula deeper than 600, and no entailment in more than
/// 300 variables. The goal is within the limits, its names differ, it is scoped over some table of predicates, and the terms
/// of the directive are scoped in its variables.
pub fn step(
    alloc: Global,
    preds: &Preds,
    lemmas: &Lemmas,
    goal: &Goal,
    directive: &Directive,
) -> Result<Parts<Goal>, StepFault>
    requires built { IsBuilt directive.now }
    requires goal { IsSoundWork (resting goal.now) }
    requires handed { FitsGoal directive.now goal.now }
    ensures { Steps preds.now lemmas.now goal.now directive.now result }
{
    let work = Work {
        goal: copy_goal(alloc, goal)?,
        held: List::new(alloc),
    };
    let start = begin(alloc, &work)?;
    let ended = run(alloc, start, directive)?;
    let Parts {
        goals: places,
        proof,
    } = ended;
    let goals = goals_of(alloc, places.as_slice())?;
    Ok(Parts { goals, proof })
}

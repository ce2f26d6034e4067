//! The goals of premises.

ghost use Rattle.std.specs.Prelude.{◌≡◌, ◌==◌, cond, IfOk, length, reverse};
ghost use Rattle.pm_goal.specs.Left.{left_of};
ghost use Rattle.pm_table.specs.declared.place.Place.TheVariants.{Finished as finished};
ghost use Rattle.pm_table.specs.Terms as table;
ghost use Rattle.pm_apply.specs.Reaching.{shared_star, goal_for};

use pm_goal::{Ctx, Goal, copy_goal, left_of};
use pm_logic::{Formula, List, Memory};
use pm_table::Place;
use std::alloc::Global;

/// The star of what may be used again.
pub fn shared_of(alloc: Global, goal: &Goal) -> Result<Formula, Memory>
    ensures { IfOk result (λ f. f ≡ shared_star goal.now) }
{
    let mut bare = copy_goal(alloc, goal)?;
    bare.spats = Ctx::new(alloc);
    let star = left_of(alloc, &bare)?;
    Ok(star)
}

/// The goal of a premise: with all spatial hypotheses where it is the last, and else with none.
fn goal_for(alloc: Global, goal: &Goal, last: bool, premise: Formula) -> Result<Place, Memory>
    ensures { IfOk result (λ p. p ≡ finished (goal_for goal.now last premise)) }
{
    let mut new = copy_goal(alloc, goal)?;
    new.concl = premise;
    if last {
        return Ok(Place::Finished(new));
    }
    new.spats = Ctx::new(alloc);
    Ok(Place::Finished(new))
}

/// The goals of the premises, of which the last one stands first.
pub fn goals_for(alloc: Global, goal: &Goal, premises: List<Formula>) -> Result<List<Place>, Memory>
    ensures { IfOk result (λ ps. ps ≡ table.premise_goals goal.now (reverse premises)) }
{
    let mut left = premises;
    let mut places = List::new(alloc);
    while let Some(premise) = left.pop() {
        let last = left.is_empty();
        places.push(goal_for(alloc, goal, last, premise)?)?;
    }
    Ok(places)
}

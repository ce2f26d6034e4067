//! Hypotheses and facts that are falsehood.

ghost use Rattle.std.specs.Prelude.{◌<◌, ◌^◌, ◌||◌};
ghost use Rattle.std.specs.List.{list_any};
ghost use Rattle.pm_star.specs.Scopes.{goal_count};
ghost use Rattle.pm_table.specs.Destructs.{is_falsehood};
ghost use Rattle.pm_table.specs.Basic.{is_hypothesis, is_fact, has_falsehood};
ghost use Rattle.pm_closing.specs.Ways.{Tells, IsFound};

use crate::finding::{by_assumption, in_facts, in_ints, in_spats};
use crate::way::{Found, Way};
use pm_goal::Goal;
use pm_logic::{Formula, Pure};

/// The hypothesis that is falsehood.
fn by_false_hypothesis(goal: &Goal) -> Option<Found>
    requires { goal_count goal.now < 2 ^ 32 }
    ensures { Tells (list_any (λ h. is_falsehood h.formula) goal.now.ints || list_any (λ h. is_falsehood h.formula) goal.now.spats) (IsFound goal.now) result }
{
    let never = Formula::Pure(Pure::False);
    if let Some(place) = in_ints(goal, &never) {
        return Some(Found {
            place,
            way: Way::BoxedFalsehood,
        });
    }
    match in_spats(goal, &never) {
        Some(place) => Some(Found {
            place,
            way: Way::Falsehood,
        }),
        None => None,
    }
}

/// The fact or the hypothesis that is falsehood.
fn by_falsehood(goal: &Goal) -> Option<Found>
    requires { goal_count goal.now < 2 ^ 32 }
    ensures { Tells (has_falsehood goal.now) (IsFound goal.now) result }
{
    if let Some(place) = in_facts(goal, &Pure::False) {
        return Some(Found {
            place,
            way: Way::Falsehood,
        });
    }
    by_false_hypothesis(goal)
}

/// What is falsehood, or else the first hypothesis or fact that is the conclusion.
pub fn by_part(goal: &Goal) -> Option<Found>
    requires { goal_count goal.now < 2 ^ 32 }
    ensures { Tells (has_falsehood goal.now || (is_hypothesis goal.now || is_fact goal.now)) (IsFound goal.now) result }
{
    match by_falsehood(goal) {
        Some(found) => Some(found),
        None => by_assumption(goal),
    }
}

//! Hypotheses and facts by which a goal is closed.

ghost use Rattle.std.specs.Prelude.{◌≡◌, ◌+◌, ◌<◌, ◌^◌, ◌||◌, length};
ghost use Rattle.std.specs.List.{list_any};
ghost use Rattle.pm_logic.specs.declared.formula.Formula.TheVariants.{Pure as Assert};
ghost use Rattle.pm_logic.specs.declared.formula.Formula.TheViews as view;
ghost use Rattle.pm_logic.specs.Trees.{Pers};
ghost use Rattle.pm_star.specs.Scopes.{goal_count};
ghost use Rattle.pm_table.specs.Basic.{by_int, is_hypothesis, is_fact};
ghost use Rattle.pm_table.specs.Equality.{pure_eq, formula_eq};
ghost use Rattle.pm_closing.specs.Ways.{Tells, IsPart, IsFound};

use crate::searching::{fact_at, hypothesis_at};
use crate::way::{Found, Way};
use pm_goal::Goal;
use pm_logic::{Formula, Pure};

/// The place of a fact among the parts of the star.
pub fn fact_place(goal: &Goal, i: usize) -> u32
    requires few { goal_count goal.now < 2 ^ 32 }
    requires within { i < length goal.now.pures }
    ensures { result ≡ i }
{
    i as u32
}

/// The place of an intuitionistic hypothesis.
pub fn int_place(goal: &Goal, i: usize) -> u32
    requires few { goal_count goal.now < 2 ^ 32 }
    requires within { i < length goal.now.ints }
    ensures { result ≡ length goal.now.pures + i }
{
    (goal.pures.len() + i) as u32
}

/// The place of a spatial hypothesis.
pub fn spat_place(goal: &Goal, i: usize) -> u32
    requires few { goal_count goal.now < 2 ^ 32 }
    requires within { i < length goal.now.spats }
    ensures { result ≡ length goal.now.pures + length goal.now.ints + i }
{
    (goal.pures.len() + goal.ints.len() + i) as u32
}

/// The place of the first fact that is the pure formula.
pub fn in_facts(goal: &Goal, wanted: &Pure) -> Option<u32>
    requires { goal_count goal.now < 2 ^ 32 }
    ensures { Tells (list_any (λ f. pure_eq wanted.now f.pure) goal.now.pures) (IsPart goal.now (Assert wanted.now)) result }
{
    match fact_at(&goal.pures, wanted) {
        Some(i) => Some(fact_place(goal, i)),
        None => None,
    }
}

/// The place of the first intuitionistic hypothesis that is the formula.
pub fn in_ints(goal: &Goal, wanted: &Formula) -> Option<u32>
    requires { goal_count goal.now < 2 ^ 32 }
    ensures { Tells (list_any (λ h. formula_eq wanted.now h.formula) goal.now.ints) (IsPart goal.now (view.Pers wanted.now)) result }
{
    match hypothesis_at(&goal.ints, wanted) {
        Some(i) => Some(int_place(goal, i)),
        None => None,
    }
}

/// The place of the first spatial hypothesis that is the formula.
pub fn in_spats(goal: &Goal, wanted: &Formula) -> Option<u32>
    requires { goal_count goal.now < 2 ^ 32 }
    ensures { Tells (list_any (λ h. formula_eq wanted.now h.formula) goal.now.spats) (IsPart goal.now wanted.now) result }
{
    match hypothesis_at(&goal.spats, wanted) {
        Some(i) => Some(spat_place(goal, i)),
        None => None,
    }
}

/// The intuitionistic hypothesis of which the conclusion is the box.
fn by_box(goal: &Goal) -> Option<Found>
    requires { goal_count goal.now < 2 ^ 32 }
    ensures { Tells (list_any (λ h. formula_eq goal.now.concl (Pers h.formula)) goal.now.ints) (IsFound goal.now) result }
{
    let Formula::Pers(inner) = &goal.concl else {
        return None;
    };
    match in_ints(goal, inner.get()) {
        Some(place) => Some(Found {
            place,
            way: Way::Same,
        }),
        None => None,
    }
}

/// The intuitionistic hypothesis that is the conclusion, or of which that is the box.
fn by_intuitionistic(goal: &Goal) -> Option<Found>
    requires { goal_count goal.now < 2 ^ 32 }
    ensures { Tells (list_any (λ h. by_int goal.now.concl h.formula) goal.now.ints) (IsFound goal.now) result }
{
    if let Some(place) = in_ints(goal, &goal.concl) {
        return Some(Found {
            place,
            way: Way::Boxed,
        });
    }
    by_box(goal)
}

/// The hypothesis that is the conclusion, or an intuitionistic one of which that is the box.
fn by_hypothesis(goal: &Goal) -> Option<Found>
    requires { goal_count goal.now < 2 ^ 32 }
    ensures { Tells (is_hypothesis goal.now) (IsFound goal.now) result }
{
    if let Some(place) = in_spats(goal, &goal.concl) {
        return Some(Found {
            place,
            way: Way::Same,
        });
    }
    by_intuitionistic(goal)
}

/// The fact that the conclusion says.
fn by_fact(goal: &Goal) -> Option<Found>
    requires { goal_count goal.now < 2 ^ 32 }
    ensures { Tells (is_fact goal.now) (IsFound goal.now) result }
{
    let Formula::Pure(fact) = &goal.concl else {
        return None;
    };
    match in_facts(goal, fact) {
        Some(place) => Some(Found {
            place,
            way: Way::Same,
        }),
        None => None,
    }
}

/// The first hypothesis or fact that is the conclusion.
pub fn by_assumption(goal: &Goal) -> Option<Found>
    requires { goal_count goal.now < 2 ^ 32 }
    ensures { Tells (is_hypothesis goal.now || is_fact goal.now) (IsFound goal.now) result }
{
    match by_hypothesis(goal) {
        Some(found) => Some(found),
        None => by_fact(goal),
    }
}

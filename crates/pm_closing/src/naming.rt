//! Hypotheses and facts looked up by their names.

ghost use Rattle.std.specs.Prelude.{◌≡◌, ◌<◌, ◌^◌, is_some};
ghost use Rattle.pm_logic.specs.declared.formula.Formula.TheViews as view;
ghost use Rattle.pm_star.specs.Scopes.{goal_count};
ghost use Rattle.pm_table.specs.Basic.{passes, by_spat, by_int, by_fact, is_exact};
ghost use Rattle.pm_table.specs.Works.{hyp_named, fact_named, has_hyp_or_fact};
ghost use Rattle.pm_closing.specs.Ways.{Tells, IsFound, part_for};

use crate::finding::{fact_place, int_place, spat_place};
use crate::way::{Found, Way};
use pm_goal::{Ctx, Facts, Goal};
use pm_logic::{Formula, Name, Pure, same, same_pure};

/// Whether a hypothesis has the name.
fn names_hypothesis(hyps: &Ctx, name: &Name) -> bool
    ensures { result ≡ is_some (hyp_named name.now hyps.now) }
{
    hyps.place(name).is_some()
}

/// Whether a fact has the name.
fn names_fact(facts: &Facts, name: &Name) -> bool
    ensures { result ≡ is_some (fact_named name.now facts.now) }
{
    facts.place(name).is_some()
}

/// Whether a hypothesis or a fact has the name.
pub fn is_named(goal: &Goal, name: &Name) -> bool
    ensures { result ≡ has_hyp_or_fact goal.now name.now }
{
    names_hypothesis(&goal.ints, name)
        || names_hypothesis(&goal.spats, name)
        || names_fact(&goal.pures, name)
}

/// The spatial hypothesis of the name, where it is the conclusion.
fn exact_spat(goal: &Goal, name: &Name) -> Option<Found>
    requires { goal_count goal.now < 2 ^ 32 }
    ensures { Tells (passes (by_spat goal.now.concl) (hyp_named name.now goal.now.spats)) (IsFound goal.now) result }
{
    let Some(i) = goal.spats.place(name) else {
        return None;
    };
    let Some(formula) = goal.spats.formula(i) else {
        return None;
    };
    if !same(&goal.concl, formula) {
        return None;
    }
    Some(Found {
        place: spat_place(goal, i),
        way: Way::Same,
    })
}

/// How an intuitionistic hypothesis gives the conclusion.
fn way_of_int(concl: &Formula, formula: &Formula) -> Option<Way>
    ensures { Tells (by_int concl.now formula.now) (λ way. part_for way concl.now ≡ view.Pers formula.now) result }
{
    if same(concl, formula) {
        return Some(Way::Boxed);
    }
    let Formula::Pers(inner) = concl else {
        return None;
    };
    if same(inner.get(), formula) {
        Some(Way::Same)
    } else {
        None
    }
}

/// The intuitionistic hypothesis of the name, where it is the conclusion, or that is its box.
fn exact_int(goal: &Goal, name: &Name) -> Option<Found>
    requires { goal_count goal.now < 2 ^ 32 }
    ensures { Tells (passes (by_int goal.now.concl) (hyp_named name.now goal.now.ints)) (IsFound goal.now) result }
{
    let Some(i) = goal.ints.place(name) else {
        return None;
    };
    let Some(formula) = goal.ints.formula(i) else {
        return None;
    };
    match way_of_int(&goal.concl, formula) {
        Some(way) => Some(Found {
            place: int_place(goal, i),
            way,
        }),
        None => None,
    }
}

/// Whether the conclusion says the fact.
fn says(concl: &Formula, pure: &Pure) -> bool
    ensures { result ≡ by_fact concl.now pure.now }
{
    match concl {
        Formula::Pure(said) => same_pure(said, pure),
        _ => false,
    }
}

/// The fact of the name, where the conclusion says it.
fn exact_fact(goal: &Goal, name: &Name) -> Option<Found>
    requires { goal_count goal.now < 2 ^ 32 }
    ensures { Tells (passes (by_fact goal.now.concl) (fact_named name.now goal.now.pures)) (IsFound goal.now) result }
{
    let Some(i) = goal.pures.place(name) else {
        return None;
    };
    let Some(pure) = goal.pures.pure(i) else {
        return None;
    };
    if !says(&goal.concl, pure) {
        return None;
    }
    Some(Found {
        place: fact_place(goal, i),
        way: Way::Same,
    })
}

/// The hypothesis or the fact of the name, where it gives the conclusion.
pub fn by_name(goal: &Goal, name: &Name) -> Option<Found>
    requires { goal_count goal.now < 2 ^ 32 }
    ensures { Tells (is_exact name.now goal.now) (IsFound goal.now) result }
{
    if let Some(found) = exact_spat(goal, name) {
        return Some(found);
    }
    match exact_int(goal, name) {
        Some(found) => Some(found),
        None => exact_fact(goal, name),
    }
}

//! Parts of a goal by name.

ghost use Rattle.std.specs.Prelude.{◌≡◌, ◌+◌, ◌<◌, ◌^◌, length, is_some};
ghost use Rattle.pm_table.specs.Stepping.{NamesDiffer};
ghost use Rattle.pm_table.specs.Works.{hyp_named, has_hyp, has_hyp_or_fact};
ghost use Rattle.pm_basic.specs.Named.{place_named};

use pm_goal::{Ctx, Goal};
use pm_logic::Name;

/// The place in the star of the hypothesis or fact of this name.
pub fn place_named(goal: &Goal, name: &Name) -> Option<u32>
    requires { length goal.now.pures + (length goal.now.ints + length goal.now.spats) < 2 ^ 32 }
    ensures { result ≡ place_named name.now goal.now }
{
    let facts = goal.pures.len();
    if let Some(i) = goal.spats.place(name) {
        return Some((facts + goal.ints.len() + i) as u32);
    }
    if let Some(i) = goal.ints.place(name) {
        return Some((facts + i) as u32);
    }
    match goal.pures.place(name) {
        Some(i) => Some(i as u32),
        None => None,
    }
}

/// Whether a hypothesis or fact has the name.
pub fn is_named(goal: &Goal, name: &Name) -> bool
    requires few { length goal.now.pures + (length goal.now.ints + length goal.now.spats) < 2 ^ 32 }
    requires apart { NamesDiffer goal.now }
    ensures { result ≡ has_hyp_or_fact goal.now name.now }
{
    place_named(goal, name).is_some()
}

/// Whether a hypothesis of the context has the name.
pub fn names_hypothesis(hyps: &Ctx, name: &Name) -> bool
    ensures { result ≡ is_some (hyp_named name.now hyps.now) }
{
    hyps.place(name).is_some()
}

/// Whether a hypothesis has the name.
pub fn is_hypothesis(goal: &Goal, name: &Name) -> bool
    ensures { result ≡ has_hyp goal.now name.now }
{
    names_hypothesis(&goal.ints, name) || names_hypothesis(&goal.spats, name)
}

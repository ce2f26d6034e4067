//! Hypotheses by their names.

ghost use Rattle.std.specs.Prelude.{◌≡◌, ◌+◌, ◌<◌, ◌^◌, Some, IfOk, length, is_some, position};
ghost use Rattle.std.specs.Str.{bytes_eq};
ghost use Rattle.pm_table.specs.Stepping.{NamesDiffer};
ghost use Rattle.pm_table.specs.Works.{hyp_named, has_hyp};
ghost use Rattle.pm_heap.specs.Found.{SpatialAt};

use pm_goal::{Ctx, Goal};
use pm_logic::{Formula, Memory, Name, copy};
use std::alloc::Global;

/// A spatial hypothesis, with its place in the star.
#[derive(Drop)]
pub struct Spatial {
    pub place: u32,
    pub formula: Formula,
}

/// Whether a hypothesis of the context has the name.
pub fn names_hypothesis(hyps: &Ctx, name: &Name) -> bool
    ensures { result ≡ is_some (hyp_named name.now hyps.now) }
{
    hyps.place(name).is_some()
}

/// Whether a hypothesis has the name.
pub fn is_hypothesis(goal: &Goal, name: &Name) -> bool
    ensures { result ≡ has_hyp goal.now name.now }
{
    names_hypothesis(&goal.ints, name) || names_hypothesis(&goal.spats, name)
}

fn spatial_at(alloc: Global, goal: &Goal, name: &Name, i: usize) -> Result<Option<Spatial>, Memory>
    requires few { length goal.now.pures + length goal.now.ints + length goal.now.spats < 2 ^ 32 }
    requires apart { NamesDiffer goal.now }
    requires found { position (λ h. bytes_eq name.now h.name) goal.now.spats ≡ Some i }
    ensures { IfOk result (SpatialAt goal.now name.now) }
{
    match goal.spats.formula(i) {
        Some(formula) => {
            let place = (goal.pures.len() + goal.ints.len() + i) as u32;
            let formula = copy(alloc, formula)?;
            Ok(Some(Spatial { place, formula }))
        }
        None => unreachable!(),
    }
}

/// The spatial hypothesis of the name, and `None` where there is none. The error is want of memory.
pub fn find_spatial(alloc: Global, goal: &Goal, name: &Name) -> Result<Option<Spatial>, Memory>
    requires few { length goal.now.pures + length goal.now.ints + length goal.now.spats < 2 ^ 32 }
    requires apart { NamesDiffer goal.now }
    ensures { IfOk result (SpatialAt goal.now name.now) }
{
    match goal.spats.place(name) {
        Some(i) => spatial_at(alloc, goal, name, i),
        None => Ok(None),
    }
}

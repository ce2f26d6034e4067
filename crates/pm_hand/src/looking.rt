//! What a name names among the hypotheses and facts of a goal, and the goal without it.

ghost use Rattle.std.specs.Prelude.{◌≡◌, ◌+◌, ◌<◌, ◌^◌, Some, None, IfOk, length, position};
ghost use Rattle.std.specs.Str.{bytes_eq};
ghost use Rattle.pm_table.specs.Stepping.{NamesDiffer};
ghost use Rattle.pm_table.specs.Works.{without_named};
ghost use Rattle.pm_hand.specs.Looking.{LookedUp};

use pm_action::{facts_but, hyps_but};
use pm_goal::{Goal, Kind};
use pm_logic::{Formula, List, Memory, Name, Pure, copy, copy_name, copy_pure};
use std::alloc::Global;

/// A hypothesis or fact that was looked up, with its place in the star of the goal.
#[derive(Drop)]
pub enum Lookup {
    Hyp(u32, Kind, Formula),
    Fact(u32, Pure),
}

fn spatial(alloc: Global, goal: &Goal, name: &Name, i: usize) -> Result<Option<Lookup>, Memory>
    requires few { length goal.now.pures + length goal.now.ints + length goal.now.spats < 2 ^ 32 }
    requires apart { NamesDiffer goal.now }
    requires found { position (λ h. bytes_eq name.now h.name) goal.now.spats ≡ Some i }
    ensures { IfOk result (LookedUp goal.now name.now) }
{
    match goal.spats.formula(i) {
        Some(formula) => {
            let place = (goal.pures.len() + goal.ints.len() + i) as u32;
            let formula = copy(alloc, formula)?;
            Ok(Some(Lookup::Hyp(place, Kind::Spat, formula)))
        }
        None => unreachable!(),
    }
}

fn intuitionistic(
    alloc: Global,
    goal: &Goal,
    name: &Name,
    i: usize,
) -> Result<Option<Lookup>, Memory>
    requires few { length goal.now.pures + length goal.now.ints + length goal.now.spats < 2 ^ 32 }
    requires apart { NamesDiffer goal.now }
    requires found { position (λ h. bytes_eq name.now h.name) goal.now.ints ≡ Some i }
    ensures { IfOk result (LookedUp goal.now name.now) }
{
    match goal.ints.formula(i) {
        Some(formula) => {
            let place = (goal.pures.len() + i) as u32;
            let formula = copy(alloc, formula)?;
            Ok(Some(Lookup::Hyp(place, Kind::Int, formula)))
        }
        None => unreachable!(),
    }
}

fn pure(alloc: Global, goal: &Goal, name: &Name, i: usize) -> Result<Option<Lookup>, Memory>
    requires few { length goal.now.pures + length goal.now.ints + length goal.now.spats < 2 ^ 32 }
    requires apart { NamesDiffer goal.now }
    requires found { position (λ f. bytes_eq name.now f.name) goal.now.pures ≡ Some i }
    ensures { IfOk result (LookedUp goal.now name.now) }
{
    match goal.pures.pure(i) {
        Some(pure) => {
            let pure = copy_pure(alloc, pure)?;
            Ok(Some(Lookup::Fact(i as u32, pure)))
        }
        None => unreachable!(),
    }
}

/// The hypothesis or fact of the name, and `None` where there is none. The error is want of memory.
pub fn look_up(alloc: Global, goal: &Goal, name: &Name) -> Result<Option<Lookup>, Memory>
    requires few { length goal.now.pures + length goal.now.ints + length goal.now.spats < 2 ^ 32 }
    requires apart { NamesDiffer goal.now }
    ensures { IfOk result (LookedUp goal.now name.now) }
{
    if let Some(i) = goal.spats.place(name) {
        return spatial(alloc, goal, name, i);
    }
    if let Some(i) = goal.ints.place(name) {
        return intuitionistic(alloc, goal, name, i);
    }
    if let Some(i) = goal.pures.place(name) {
        return pure(alloc, goal, name, i);
    }
    Ok(None)
}

fn copy_names(alloc: Global, names: &[Name]) -> Result<List<Name>, Memory>
    ensures { IfOk result (λ copy. copy ≡ names.now) }
{
    let mut out = List::new(alloc);
    for name in names {
        out.push(copy_name(alloc, name)?)?;
    }
    Ok(out)
}

/// The goal without the hypothesis or fact of the name. The error is want of memory.
pub fn without_named(alloc: Global, goal: &Goal, name: &Name) -> Result<Goal, Memory>
    requires { NamesDiffer goal.now }
    ensures { IfOk result (λ g. g ≡ without_named name.now goal.now) }
{
    let vars = copy_names(alloc, goal.vars.as_slice())?;
    let pures = facts_but(alloc, name, &goal.pures)?;
    let ints = hyps_but(alloc, name, &goal.ints)?;
    let spats = hyps_but(alloc, name, &goal.spats)?;
    let concl = copy(alloc, &goal.concl)?;
    Ok(Goal {
        vars,
        pures,
        ints,
        spats,
        concl,
    })
}

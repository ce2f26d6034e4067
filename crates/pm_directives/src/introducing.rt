//! Introductions, selections and reverting, on all works.

ghost use Rattle.std.specs.Prelude.{◌∷◌, [], reverse, IsTrue};
ghost use Rattle.pm_table.specs.Running.{in_order, act as act_all};
ghost use Rattle.pm_table.specs.Basic.{on_goal, revert_var};
ghost use Rattle.pm_table.specs.Patterns as table;
ghost use Rattle.pm_patterns.specs.declared.pattern.Sel.TheVariants as sel;
ghost use Rattle.pm_table.specs.Directives.{revert_selected, frame_selected};
ghost use Rattle.pm_directives.specs.Built.{IsBuiltPattern, is_built_intro, AreBuiltIntros};
ghost use Rattle.pm_sweep.specs.Standing.{IsStanding, Follows};

use crate::groups::{Alone, Group, each_alone};
use crate::patterns::destruct;
use pm_goal::StepFault;
use pm_logic::Name;
use pm_patterns::{Pat, Sel};
use pm_proof::Parts;
use pm_sweep::{Act, Changing, Entering, Framing, Turn, sweep};
use pm_table::Place;
use std::alloc::Global;

/// What `{sel}` and `iClear` clear.
fn clear_selected(
    alloc: Global,
    standing: Parts<Place>,
    sel: &Sel,
) -> Result<Parts<Place>, StepFault>
    requires { IsStanding standing }
    ensures { Follows standing (table.clear_selected sel.now standing.goals) result }
{
    match sel {
        Sel::Name(name) => {
            let act = Act::Change(Changing::Clear(name));
            sweep(alloc, standing, Turn::Every, act)
        }
        Sel::Pures => each_alone(alloc, standing, Alone::Clear(Group::Facts)),
        Sel::Ints => each_alone(alloc, standing, Alone::Clear(Group::Ints)),
        Sel::Spats => each_alone(alloc, standing, Alone::Clear(Group::Spats)),
    }
}

/// All that is selected is cleared, in order.
pub fn clear_all(
    alloc: Global,
    standing: Parts<Place>,
    sels: &[Sel],
) -> Result<Parts<Place>, StepFault>
    requires { IsStanding standing }
    ensures { Follows standing (table.clear_all_selected sels.now standing.goals) result }
{
    match sels {
        [] => Ok(standing),
        [sel, rest @ ..] => {
            let next = clear_selected(alloc, standing, sel)?;
            clear_all(alloc, next, rest)
        }
    }
}

/// What is selected is reverted, the members of a group last first.
fn revert_selected(
    alloc: Global,
    standing: Parts<Place>,
    sel: &Sel,
) -> Result<Parts<Place>, StepFault>
    requires { IsStanding standing }
    ensures { Follows standing (revert_selected sel.now standing.goals) result }
{
    match sel {
        Sel::Name(name) => {
            let act = Act::Change(Changing::Revert(name));
            sweep(alloc, standing, Turn::Every, act)
        }
        Sel::Pures => each_alone(alloc, standing, Alone::Revert(Group::Facts)),
        Sel::Ints => each_alone(alloc, standing, Alone::Revert(Group::Ints)),
        Sel::Spats => each_alone(alloc, standing, Alone::Revert(Group::Spats)),
    }
}

/// All that is selected is reverted, last first.
pub fn revert_all(
    alloc: Global,
    standing: Parts<Place>,
    sels: &[Sel],
) -> Result<Parts<Place>, StepFault>
    requires { IsStanding standing }
    ensures { Follows standing (in_order revert_selected (reverse sels.now) standing.goals) result }
{
    match sels {
        [] => Ok(standing),
        [rest @ .., sel] => {
            let next = revert_selected(alloc, standing, sel)?;
            revert_all(alloc, next, rest)
        }
    }
}

/// The variables are reverted, last first.
pub fn revert_vars(
    alloc: Global,
    standing: Parts<Place>,
    names: &[Name],
) -> Result<Parts<Place>, StepFault>
    requires { IsStanding standing }
    ensures { Follows standing (in_order (λ x. act_all (on_goal (revert_var x))) (reverse names.now) standing.goals) result }
{
    match names {
        [] => Ok(standing),
        [rest @ .., name] => {
            let act = Act::Change(Changing::RevertVar(name));
            let next = sweep(alloc, standing, Turn::Every, act)?;
            revert_vars(alloc, next, rest)
        }
    }
}

/// The introduction of a pattern that a left side or a variable is for.
fn intro_pattern(
    alloc: Global,
    standing: Parts<Place>,
    pat: &Pat,
) -> Result<Parts<Place>, StepFault>
    requires built { IsBuiltPattern pat.now }
    requires standing { IsStanding standing }
    ensures { Follows standing (table.intro_pattern pat.now standing.goals) result }
{
    let act = Act::Enter(Entering::ForPattern(pat));
    let opened = sweep(alloc, standing, Turn::Every, act)?;
    destruct(alloc, pat, opened)
}

/// One pattern of `iIntros`.
fn intro(alloc: Global, standing: Parts<Place>, pat: &Pat) -> Result<Parts<Place>, StepFault>
    requires built { IsTrue (is_built_intro pat.now) }
    requires standing { IsStanding standing }
    ensures { Follows standing (table.intro pat.now standing.goals) result }
{
    match pat {
        Pat::Done => {
            let act = Act::Change(Changing::TryDone);
            sweep(alloc, standing, Turn::Every, act)
        }
        Pat::Alls => each_alone(alloc, standing, Alone::Alls),
        Pat::AllsWands => each_alone(alloc, standing, Alone::AllsWands),
        Pat::Clear(sels) => clear_all(alloc, standing, sels.as_slice()),
        _ => intro_pattern(alloc, standing, pat),
    }
}

/// The patterns of `iIntros`, in order.
pub fn intro_each(
    alloc: Global,
    standing: Parts<Place>,
    pats: &[Pat],
) -> Result<Parts<Place>, StepFault>
    requires built { AreBuiltIntros pats.now }
    requires standing { IsStanding standing }
    ensures { Follows standing (table.intro_each pats.now standing.goals) result }
{
    match pats {
        [] => Ok(standing),
        [pat, rest @ ..] => {
            let next = intro(alloc, standing, pat)?;
            intro_each(alloc, next, rest)
        }
    }
}

/// What is selected is framed; of a group what has no rest is passed over.
fn frame_selected(
    alloc: Global,
    standing: Parts<Place>,
    sel: &Sel,
) -> Result<Parts<Place>, StepFault>
    requires { IsStanding standing }
    ensures { Follows standing (frame_selected sel.now standing.goals) result }
{
    match sel {
        Sel::Name(name) => {
            let act = Act::Frame(Framing::Named(name));
            sweep(alloc, standing, Turn::Every, act)
        }
        Sel::Pures => each_alone(alloc, standing, Alone::Frame(Group::Facts)),
        Sel::Ints => each_alone(alloc, standing, Alone::Frame(Group::Ints)),
        Sel::Spats => each_alone(alloc, standing, Alone::Frame(Group::Spats)),
    }
}

/// All that is selected is framed, in order.
pub fn frame_all(
    alloc: Global,
    standing: Parts<Place>,
    sels: &[Sel],
) -> Result<Parts<Place>, StepFault>
    requires { IsStanding standing }
    ensures { Follows standing (in_order frame_selected sels.now standing.goals) result }
{
    match sels {
        [] => Ok(standing),
        [sel, rest @ ..] => {
            let next = frame_selected(alloc, standing, sel)?;
            frame_all(alloc, next, rest)
        }
    }
}

/// All spatial hypotheses are framed, where one has no rest it is passed over.
pub fn frame_spatial(alloc: Global, standing: Parts<Place>) -> Result<Parts<Place>, StepFault>
    requires { IsStanding standing }
    ensures { Follows standing (in_order frame_selected (sel.Spats ∷ []) standing.goals) result }
{
    each_alone(alloc, standing, Alone::Frame(Group::Spats))
}

//! Groups and repeated introductions: several actions on one work, before the next work.

ghost use Rattle.std.specs.Prelude.{◌≡◌, ◌||◌, ◌++◌, map, reverse, IfOk, OnOk};
ghost use Rattle.pm_table.specs.Running as running;
ghost use Rattle.pm_table.specs.Running.{in_place, in_order, after, act as act_all};
ghost use Rattle.pm_table.specs.Works.{at_rest};
ghost use Rattle.pm_table.specs.Introductions.{is_empty, intro_hyp};
ghost use Rattle.pm_classes.specs.Persistence.{is_persistent};
ghost use Rattle.pm_table.specs.Destructs.{name_fresh};
ghost use Rattle.pm_table.specs.Patterns as table;
ghost use Rattle.pm_directives.specs.Groups.{group_names, alone_run, each_action, is_some_action};
ghost use Rattle.pm_sweep.specs.Standing.{IsStanding, IsSound, IsSoundWork, Follows, Replaces, ReplacesWork};

use pm_action::refuse_plain;
use pm_goal::{Ctx, Facts, Goal, Row, StepFault, Work};
use pm_logic::{Formula, List, Memory, Name, copy_name, persistent};
use pm_proof::Parts;
use pm_sweep::{
    Act, Changing, Entering, Framing, Handling, Turn, append, begin, stay, sweep, with_turns,
};
use pm_table::Place;
use std::alloc::Global;

/// The contexts that groups stand for.
#[derive(Clone, Copy)]
pub enum Group {
    Facts,
    Ints,
    Spats,
}

/// What is done with one work alone.
#[derive(Clone, Copy)]
pub enum Alone {
    Clear(Group),
    Revert(Group),
    Frame(Group),
    /// `*`
    Alls,
    /// `**`
    AllsWands,
}

/// What is done with each hypothesis of a group.
#[derive(Clone, Copy)]
pub enum Each {
    Clear,
    Revert,
    Frame,
}

fn push_fact_names(alloc: Global, facts: &Facts, out: &mut List<Name>) -> Result<(), Memory>
    ensures { OnOk result (out.new ≡ out.old ++ map (λ f. f.name) facts.now) }
{
    let len = facts.len();
    let mut next = 0;
    while next < len {
        let i = next;
        next += 1;
        if let Some(name) = facts.name(i) {
            out.push(copy_name(alloc, name)?)?;
        }
    }
    Ok(())
}

fn push_hyp_names(alloc: Global, hyps: &Ctx, out: &mut List<Name>) -> Result<(), Memory>
    ensures { OnOk result (out.new ≡ out.old ++ map (λ h. h.name) hyps.now) }
{
    let len = hyps.len();
    let mut next = 0;
    while next < len {
        let i = next;
        next += 1;
        if let Some(name) = hyps.name(i) {
            out.push(copy_name(alloc, name)?)?;
        }
    }
    Ok(())
}

/// The names in the group's context.
fn group_names(alloc: Global, goal: &Goal, group: Group) -> Result<List<Name>, Memory>
    ensures { IfOk result (λ names. names ≡ group_names group goal.now) }
{
    let mut out = List::new(alloc);
    match group {
        Group::Facts => push_fact_names(alloc, &goal.pures, &mut out)?,
        Group::Ints => push_hyp_names(alloc, &goal.ints, &mut out)?,
        Group::Spats => push_hyp_names(alloc, &goal.spats, &mut out)?,
    }
    Ok(out)
}

/// Clears, reverts or frames what has the name, on all works.
fn change_each(
    alloc: Global,
    standing: Parts<Place>,
    each: Each,
    name: &Name,
) -> Result<Parts<Place>, StepFault>
    requires { IsStanding standing }
    ensures { Follows standing (act_all (each_action each name.now) standing.goals) result }
{
    match each {
        Each::Clear => {
            let act = Act::Change(Changing::Clear(name));
            sweep(alloc, standing, Turn::Every, act)
        }
        Each::Revert => {
            let act = Act::Change(Changing::Revert(name));
            sweep(alloc, standing, Turn::Every, act)
        }
        Each::Frame => {
            let act = Act::Frame(Framing::Member(name));
            sweep(alloc, standing, Turn::Every, act)
        }
    }
}

/// The action for each name, in order.
fn for_each(
    alloc: Global,
    standing: Parts<Place>,
    each: Each,
    names: &[Name],
) -> Result<Parts<Place>, StepFault>
    requires { IsStanding standing }
    ensures { Follows standing (in_order (λ h. act_all (each_action each h)) names.now standing.goals) result }
{
    match names {
        [] => Ok(standing),
        [name, rest @ ..] => {
            let next = change_each(alloc, standing, each, name)?;
            for_each(alloc, next, each, rest)
        }
    }
}

/// The action for each name, last first.
fn for_each_back(
    alloc: Global,
    standing: Parts<Place>,
    each: Each,
    names: &[Name],
) -> Result<Parts<Place>, StepFault>
    requires { IsStanding standing }
    ensures { Follows standing (in_order (λ h. act_all (each_action each h)) (reverse names.now) standing.goals) result }
{
    match names {
        [] => Ok(standing),
        [rest @ .., name] => {
            let next = change_each(alloc, standing, each, name)?;
            for_each_back(alloc, next, each, rest)
        }
    }
}

/// The introductions of universals at the front of the formula.
fn universals(alloc: Global, standing: Parts<Place>, f: &Formula) -> Result<Parts<Place>, StepFault>
    requires { IsStanding standing }
    ensures { Follows standing (in_order act_all (table.universals f.now) standing.goals) result }
{
    match f {
        Formula::All(body) => {
            let inner = body.get();
            let act = Act::Enter(Entering::FreshVariable);
            let next = sweep(alloc, standing, Turn::Every, act)?;
            universals(alloc, next, inner)
        }
        _ => Ok(standing),
    }
}

/// The introduction of a left side, by a new name.
fn left_side(alloc: Global, standing: Parts<Place>) -> Result<Parts<Place>, StepFault>
    requires { IsStanding standing }
    ensures { Follows standing (after (act_all (at_rest intro_hyp) standing.goals) (act_all name_fresh)) result }
{
    let act = Act::Enter(Entering::LeftSide);
    let held = sweep(alloc, standing, Turn::Every, act)?;
    sweep(alloc, held, Turn::Every, Act::Handle(Handling::NameFresh))
}

/// Whether the left side of an implication can be introduced, where there are spatial hypotheses or none.
fn may_enter(none: bool, left: &Formula) -> bool
    ensures { result ≡ (none || is_persistent left.now) }
{
    none || persistent(left)
}

/// The introductions at the front of the formula, where there are spatial hypotheses or none.
fn premises(
    alloc: Global,
    standing: Parts<Place>,
    none: bool,
    f: &Formula,
) -> Result<Parts<Place>, StepFault>
    requires { IsStanding standing }
    ensures { Follows standing (in_order act_all (table.premises none f.now) standing.goals) result }
{
    match f {
        Formula::All(body) => {
            let inner = body.get();
            let act = Act::Enter(Entering::FreshVariable);
            let next = sweep(alloc, standing, Turn::Every, act)?;
            premises(alloc, next, none, inner)
        }
        Formula::Wand(_, b) => {
            let behind = b.get();
            let next = left_side(alloc, standing)?;
            premises(alloc, next, false, behind)
        }
        Formula::Imp(a, b) => {
            let left = a.get();
            let right = b.get();
            let enters = may_enter(none, left);
            if enters {
                let next = left_side(alloc, standing)?;
                premises(alloc, next, false, right)
            } else {
                Ok(standing)
            }
        }
        _ => Ok(standing),
    }
}

/// The introductions of `*`, where there are some.
fn alls(alloc: Global, work: &Work) -> Result<Parts<Place>, StepFault>
    requires { IsSoundWork work.now }
    ensures { ReplacesWork work.now (table.intro_alls work.now) result }
{
    match &work.goal.concl {
        Formula::All(_) => {
            let start = begin(alloc, work)?;
            universals(alloc, start, &work.goal.concl)
        }
        _ => Err(refuse_plain(Row::NoVariableToIntroduce)),
    }
}

/// Whether something at the front of the formula can be introduced.
fn enters(none: bool, f: &Formula) -> bool
    ensures { result ≡ is_some_action (table.premises none f.now) }
{
    match f {
        Formula::All(_) | Formula::Wand(_, _) => true,
        Formula::Imp(a, _) => may_enter(none, a.get()),
        _ => false,
    }
}

fn no_spatial(goal: &Goal) -> bool
    ensures { result ≡ is_empty goal.now.spats }
{
    goal.spats.len() == 0
}

/// The introductions of `**`, where there are some.
fn alls_wands(alloc: Global, work: &Work) -> Result<Parts<Place>, StepFault>
    requires { IsSoundWork work.now }
    ensures { ReplacesWork work.now (table.intro_premises work.now) result }
{
    let none = no_spatial(&work.goal);
    if !enters(none, &work.goal.concl) {
        return Err(refuse_plain(Row::NoHypothesisToIntroduce));
    }
    let start = begin(alloc, work)?;
    premises(alloc, start, none, &work.goal.concl)
}

/// What is done with the work alone.
fn run_alone(alloc: Global, work: &Work, alone: Alone) -> Result<Parts<Place>, StepFault>
    requires { IsSoundWork work.now }
    ensures { ReplacesWork work.now (alone_run alone work.now) result }
{
    match alone {
        Alone::Clear(group) => {
            let names = group_names(alloc, &work.goal, group)?;
            let start = begin(alloc, work)?;
            for_each(alloc, start, Each::Clear, names.as_slice())
        }
        Alone::Revert(group) => {
            let names = group_names(alloc, &work.goal, group)?;
            let start = begin(alloc, work)?;
            for_each_back(alloc, start, Each::Revert, names.as_slice())
        }
        Alone::Frame(group) => {
            let names = group_names(alloc, &work.goal, group)?;
            let start = begin(alloc, work)?;
            for_each(alloc, start, Each::Frame, names.as_slice())
        }
        Alone::Alls => alls(alloc, work),
        Alone::AllsWands => alls_wands(alloc, work),
    }
}

/// The same with the work of a place.
fn alone_at(alloc: Global, place: &Place, alone: Alone) -> Result<Parts<Place>, StepFault>
    requires { IsSound place.now }
    ensures { Replaces place.now (in_place (alone_run alone) place.now) result }
{
    match place {
        Place::Finished(_) => stay(alloc, place),
        Place::Current(turns, work) => {
            let ended = run_alone(alloc, work, alone)?;
            let Parts { goals, proof } = ended;
            let kept = with_turns(alloc, goals, turns.as_slice())?;
            Ok(Parts { goals: kept, proof })
        }
    }
}

/// The same with each work, from left to right.
pub fn each_alone(
    alloc: Global,
    standing: Parts<Place>,
    alone: Alone,
) -> Result<Parts<Place>, StepFault>
    requires { IsStanding standing }
    ensures { Follows standing (running.each_alone (alone_run alone) standing.goals) result }
{
    let Parts {
        goals: places,
        mut proof,
    } = standing;
    let mut new = List::new(alloc);
    for place in places.as_slice() {
        let ended = alone_at(alloc, place, alone)?;
        let Parts {
            goals,
            proof: inner,
        } = ended;
        let count = new.len();
        proof = proof.fill(count as u64, inner);
        append(alloc, goals, &mut new)?;
    }
    Ok(Parts { goals: new, proof })
}

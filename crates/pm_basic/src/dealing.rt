//! Stars of two parts, among which the spatial hypotheses are dealt.

ghost use Rattle.std.specs.Prelude.{◌≡◌, ◌+◌, ◌<◌, ◌^◌, ◌++◌, ◌∷◌, [], not, None, IfOk, OnOk, length, position};
ghost use Rattle.std.specs.List.{find};
ghost use Rattle.std.specs.Option.{option_copied};
ghost use Rattle.std.specs.Str.{bytes_eq};
ghost use Rattle.pm_logic.specs.declared.formula.Formula.TheViews as view;
ghost use Rattle.pm_goal.specs.Left.{left_of_work};
ghost use Rattle.pm_star.specs.Stars.{work_parts, Moves};
ghost use Rattle.pm_classes.specs.Classes.{parts};
ghost use Rattle.pm_table.specs.Basic as table;
ghost use Rattle.pm_table.specs.Limits.{all_nodes, work_formulas, limited};
ghost use Rattle.pm_table.specs.Stepping.{NamesDiffer};
ghost use Rattle.pm_table.specs.Works as works;
ghost use Rattle.pm_action.specs.Acting.{Answers, IsHanded};
ghost use Rattle.pm_action.specs.Naming.{HypsDiffer};
ghost use Rattle.pm_basic.specs.Deals.{is_named, goes, side_of, dealt_goal, dealt_star, places_where, where_place, where_goes, BothSay, AreSpatial};

use crate::finding::{is_hypothesis, names_hypothesis};
use crate::rules::beside;
use crate::steps::at_rest;
use pm_action::{finish_two, refuse, refuse_plain};
use pm_goal::{Ctx, Goal, Hyp, Row, StepFault, Work, copy_goal, left_of_work};
use pm_logic::{Formula, List, Memory, Name, copy, copy_name};
use pm_proof::{Parts, Proof};
use pm_star::{compose, partition_held};
use pm_table::Place;
use std::alloc::Global;

fn is_listed(names: &[Name], name: &Name) -> bool
    ensures { result ≡ works.is_listed names.now name.now }
{
    names.iter().any(|n| name.bytes() == n.bytes())
}

/// The first name that is no hypothesis.
fn no_hypothesis<'a>(goal: &Goal, names: &'a [Name]) -> Option<&'a Name>
    ensures { option_copied result ≡ find (λ x. not (works.has_hyp goal.now x)) names.now }
{
    names.iter().find(|x| !is_hypothesis(goal, x))
}

/// The first name that is no spatial hypothesis.
fn not_spatial<'a>(goal: &Goal, names: &'a [Name]) -> Option<&'a Name>
    ensures { option_copied result ≡ find (λ x. not (works.has_spat goal.now x)) names.now }
{
    names.iter().find(|x| !names_hypothesis(&goal.spats, x))
}

/// The first name that stands in the list before.
fn repeated(names: &[Name]) -> Option<&Name>
    ensures { option_copied result ≡ table.repeated names.now }
{
    let mut i = 0;
    while i < names.len() {
        let name = &names[i];
        if is_listed(&names[..i], name) {
            return Some(name);
        }
        i += 1;
    }
    None
}

/// Refused by the first name that isn't one of a spatial hypothesis, or is given twice.
fn all_spatial(alloc: Global, goal: &Goal, names: &[Name]) -> Result<(), StepFault>
    ensures { AreSpatial goal.now names.now result }
{
    if let Some(name) = no_hypothesis(goal, names) {
        return Err(refuse(alloc, Row::NoSuchHypothesis, name));
    }
    if let Some(name) = not_spatial(goal, names) {
        return Err(refuse(alloc, Row::NotSpatial, name));
    }
    if let Some(name) = repeated(names) {
        return Err(refuse(alloc, Row::NameGivenTwice, name));
    }
    Ok(())
}

/// The same of the list, where one is given.
fn all_listed(alloc: Global, goal: &Goal, names: Option<&List<Name>>) -> Result<(), StepFault>
    ensures { AreSpatial goal.now (table.list_given (option_copied names.entry)) result }
{
    match names {
        None => Ok(()),
        Some(list) => all_spatial(alloc, goal, list.as_slice()),
    }
}

/// Whether the name is one of the list, where one is given.
fn is_named(names: Option<&List<Name>>, name: &Name) -> bool
    ensures { result ≡ is_named (option_copied names.entry) name.now }
{
    match names {
        None => true,
        Some(names) => is_listed(names.as_slice(), name),
    }
}

/// Whether a hypothesis of this name goes to the side of the named ones, or to the other.
fn goes(named: bool, names: Option<&List<Name>>, name: &Name) -> bool
    ensures { result ≡ goes named (option_copied names.entry) name.now }
{
    if named {
        is_named(names, name)
    } else {
        !is_named(names, name)
    }
}

/// Adds a copy of the hypothesis, where it goes to that side.
fn push_where(
    alloc: Global,
    goes: bool,
    name: &Name,
    formula: &Formula,
    out: &mut Ctx,
) -> Result<(), Memory>
    requires { position (λ h. bytes_eq name.now h.name) out.now ≡ None }
    ensures { OnOk result (out.new ≡ out.old ++ where_goes goes (works.hyp name.now formula.now)) }
{
    if !goes {
        return Ok(());
    }
    let name = copy_name(alloc, name)?;
    let formula = copy(alloc, formula)?;
    out.push(Hyp { name, formula })
}

/// The hypotheses that go to that side.
fn side_of(
    alloc: Global,
    hyps: &Ctx,
    named: bool,
    names: Option<&List<Name>>,
) -> Result<Ctx, Memory>
    requires { HypsDiffer hyps.now }
    ensures { IfOk result (λ hs. hs ≡ side_of named (option_copied names.entry) hyps.now) }
{
    let len = hyps.len();
    let mut out = Ctx::new(alloc);
    let mut next = 0;
    while next < len {
        let i = next;
        next += 1;
        if let Some(name) = hyps.name(i) {
            if let Some(formula) = hyps.formula(i) {
                let here = goes(named, names, name);
                push_where(alloc, here, name, formula, &mut out)?;
            }
        }
    }
    Ok(out)
}

/// The goal with the hypotheses that go to that side, and this conclusion.
fn dealt_goal(
    alloc: Global,
    goal: &Goal,
    concl: &Formula,
    named: bool,
    names: Option<&List<Name>>,
) -> Result<Goal, Memory>
    requires { NamesDiffer goal.now }
    ensures { IfOk result (λ g. g ≡ dealt_goal named (option_copied names.entry) concl.now goal.now) }
{
    let spats = side_of(alloc, &goal.spats, named, names)?;
    let concl = copy(alloc, concl)?;
    let mut new = copy_goal(alloc, goal)?;
    new.spats = spats;
    new.concl = concl;
    Ok(new)
}

/// Adds the place, where the hypothesis goes to that side.
fn push_place(goes: bool, place: u32, out: &mut List<u32>) -> Result<(), Memory>
    ensures { OnOk result (out.new ≡ out.old ++ where_place goes place) }
{
    if goes { out.push(place) } else { Ok(()) }
}

/// The places in the star of the spatial hypotheses that go to that side.
fn places(
    alloc: Global,
    goal: &Goal,
    named: bool,
    names: Option<&List<Name>>,
) -> Result<List<u32>, Memory>
    requires { length goal.now.pures + (length goal.now.ints + length goal.now.spats) < 2 ^ 32 }
    ensures { IfOk result (λ ps. ps ≡ places_where (goes named (option_copied names.entry)) (length goal.now.pures + length goal.now.ints) goal.now.spats) }
{
    let shared = goal.pures.len() + goal.ints.len();
    let len = goal.spats.len();
    let mut out = List::new(alloc);
    let mut next = 0;
    while next < len {
        let i = next;
        next += 1;
        if let Some(name) = goal.spats.name(i) {
            let here = goes(named, names, name);
            push_place(here, (shared + i) as u32, &mut out)?;
        }
    }
    Ok(out)
}

/// From the star to those of the two goals.
fn dealt(
    alloc: Global,
    work: &Work,
    named: bool,
    names: Option<&List<Name>>,
) -> Result<Proof, Memory>
    requires handed { IsHanded work.now }
    requires nothing { work.now.held ≡ [] }
    ensures { IfOk result (λ p. Moves (length work.now.goal.vars) (length (work_parts work.now)) (left_of_work work.now) (dealt_star named (option_copied names.entry) work.now.goal) p) }
{
    let left = places(alloc, &work.goal, named, names)?;
    let proof = partition_held(alloc, work, &left)?;
    Ok(proof)
}

/// From what both works mean, which are its holes: their stars together entail both conclusions.
fn both(alloc: Global, first: &Work, second: &Work) -> Result<Proof, Memory>
    requires few { length first.now.goal.vars < 2 ^ 32 }
    requires same { length second.now.goal.vars ≡ length first.now.goal.vars }
    ensures { IfOk result (BothSay first.now second.now) }
{
    let vars = first.goal.vars.len();
    let l = left_of_work(alloc, first)?;
    let r = left_of_work(alloc, second)?;
    let proof = beside(
        alloc,
        vars as u32,
        &l,
        &r,
        &first.goal.concl,
        &second.goal.concl,
    )?;
    Ok(proof)
}

/// The two goals of a star, dealt.
#[tactic(auto, using(crate::proofs::Ending::no_memory))]
fn deal(
    alloc: Global,
    work: &Work,
    a: &Formula,
    b: &Formula,
    named: bool,
    names: Option<&List<Name>>,
) -> Result<Parts<Place>, StepFault>
    requires handed { IsHanded work.now }
    requires nothing { work.now.held ≡ [] }
    requires concl { work.now.goal.concl ≡ view.Sep a.now b.now }
    ensures { Answers (all_nodes (work_formulas work.now)) work.now (limited (table.sides named (parts a.now b.now) (option_copied names.entry) work.now.goal)) result }
{
    let left = dealt_goal(alloc, &work.goal, a, named, names)?;
    let right = dealt_goal(alloc, &work.goal, b, !named, names)?;
    let first = at_rest(alloc, left);
    let second = at_rest(alloc, right);
    let moved = dealt(alloc, work, named, names)?;
    let step = both(alloc, &first, &second)?;
    let proof = compose(alloc, moved, step)?;
    finish_two(alloc, first, second, proof)
}

/// `iSplitL` and `iSplitR`: the conclusion, which is a star, is split. The spatial hypotheses that the list names go to the left
/// goal, or to the right one, and the others to the other; where no list is given, all are named.
///
/// It is refused where the conclusion is no star; by the first name that is no hypothesis, else by the first that is no spatial
/// one, else by the first that is given twice; and where a work passes a limit.
pub fn split_at(
    alloc: Global,
    work: &Work,
    left: bool,
    names: Option<&List<Name>>,
) -> Result<Parts<Place>, StepFault>
    requires handed { IsHanded work.now }
    requires nothing { work.now.held ≡ [] }
    ensures { Answers (all_nodes (work_formulas work.now)) work.now (limited (table.on_goal (table.split_at left (option_copied names.entry)) work.now)) result }
{
    let Formula::Sep(a, b) = &work.goal.concl else {
        return Err(refuse_plain(Row::ConclusionNotStar));
    };
    match all_listed(alloc, &work.goal, names) {
        Ok(()) => deal(alloc, work, a.get(), b.get(), left, names),
        Err(fault) => Err(fault),
    }
}

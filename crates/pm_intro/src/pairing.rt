//! What is last in hand is taken apart: into two parts, a variable and a body, or one part of a conjunction.

ghost use Rattle.std.specs.Prelude.{◌≡◌, ◌<◌, [], ◌∷◌, Some, IfOk, length};
ghost use Rattle.pm_logic.specs.declared.formula.Formula.TheViews as view;
ghost use Rattle.pm_goal.specs.declared.work.Kind.TheVariants.{Spat};
ghost use Rattle.pm_classes.specs.Classes.{parts};
ghost use Rattle.pm_table.specs.Limits.{all_nodes, work_formulas, limited};
ghost use Rattle.pm_table.specs.Destructs as table;
ghost use Rattle.pm_table.specs.Works.{holding};
ghost use Rattle.pm_action.specs.Acting.{Answers, IsHanded, IsLast};
ghost use Rattle.pm_action.specs.Naming.{IsFindable};
ghost use Rattle.pm_intro.specs.Hands.{hand_at, kept, HasParts};
ghost use Rattle.pm_intro.specs.Pairs.{Becomes, fourth, other_ways};

use crate::ending::by_move_open;
use crate::entries::{into_body, into_parts};
use crate::hands::{of_kind, with_one, with_two};
use crate::steps::{left_part, right_part, swapped};
use crate::witness::body_held;
use pm_action::{fresh_name, last, last_place, refuse_plain};
use pm_classes::Pair;
use pm_goal::{Goal, Held, Kind, Row, StepFault, Work};
use pm_logic::{Formula, Memory, Name, copy_name};
use pm_patterns::Pat;
use pm_proof::{Parts, Proof};
use pm_star::{replace_at_held, unpair_held};
use pm_table::Place;
use std::alloc::Global;

/// From the star to the star with the parts of what is last in hand in its place, the second one first.
fn unpaired(alloc: Global, work: &Work, held: &Held, entry: Pair) -> Result<Proof, Memory>
    requires handed { IsHanded work.now }
    requires some { 0 < length work.now.held }
    requires last { IsLast work.now held.now }
    requires says { HasParts held.now.kind (length work.now.goal.vars) held.now.formula entry }
    ensures { IfOk result (Becomes work.now (kept work.now (holding held.now.kind entry.second ∷ holding held.now.kind entry.first ∷ []))) }
{
    let Pair {
        first,
        second,
        proof,
    } = entry;
    let vars = work.goal.vars.len() as u32;
    let whole = of_kind(alloc, held.kind, &held.formula)?;
    let first = of_kind(alloc, held.kind, &first)?;
    let second = of_kind(alloc, held.kind, &second)?;
    let by = swapped(alloc, vars, &whole, &first, &second, proof)?;
    let proof = unpair_held(alloc, work, last_place(work), by, &second, &first)?;
    Ok(proof)
}

/// Both parts are held, the first one last.
#[tactic(auto, using(crate::proofs::Answered::wants_memory))]
fn both_parts(
    alloc: Global,
    work: &Work,
    held: &Held,
    entry: Pair,
) -> Result<Parts<Place>, StepFault>
    requires handed { IsHanded work.now }
    requires some { 0 < length work.now.held }
    requires last { IsLast work.now held.now }
    requires says { HasParts held.now.kind (length work.now.goal.vars) held.now.formula entry }
    ensures { Answers (all_nodes (work_formulas work.now)) work.now (limited (table.both_parts work.now (hand_at work.now held.now) (parts entry.first entry.second))) result }
{
    let new = with_two(alloc, work, held.kind, &entry.second, &entry.first)?;
    let moved = unpaired(alloc, work, held, entry)?;
    by_move_open(alloc, work, true, true, new, moved)
}

/// From the star to the star with the first part of the conjunction in its place.
fn first_kept(
    alloc: Global,
    work: &Work,
    held: &Held,
    a: &Formula,
    b: &Formula,
) -> Result<Proof, Memory>
    requires handed { IsHanded work.now }
    requires some { 0 < length work.now.held }
    requires last { IsLast work.now held.now }
    requires is { held.now ≡ holding Spat (view.And a.now b.now) }
    ensures { IfOk result (Becomes work.now (kept work.now (holding Spat a.now ∷ []))) }
{
    let vars = work.goal.vars.len() as u32;
    let by = left_part(alloc, vars, a, b)?;
    let proof = replace_at_held(alloc, work, last_place(work), by)?;
    Ok(proof)
}

/// The first part is held.
#[tactic(auto, using(crate::proofs::Answered::wants_memory))]
fn first_part(
    alloc: Global,
    work: &Work,
    held: &Held,
    a: &Formula,
    b: &Formula,
) -> Result<Parts<Place>, StepFault>
    requires handed { IsHanded work.now }
    requires some { 0 < length work.now.held }
    requires last { IsLast work.now held.now }
    requires is { held.now ≡ holding Spat (view.And a.now b.now) }
    ensures { Answers (all_nodes (work_formulas work.now)) work.now (limited (table.first_part work.now (hand_at work.now held.now) a.now)) result }
{
    let new = with_one(alloc, work, Kind::Spat, a)?;
    let moved = first_kept(alloc, work, held, a, b)?;
    by_move_open(alloc, work, true, false, new, moved)
}

/// From the star to the star with the second part of the conjunction in its place.
fn second_kept(
    alloc: Global,
    work: &Work,
    held: &Held,
    a: &Formula,
    b: &Formula,
) -> Result<Proof, Memory>
    requires handed { IsHanded work.now }
    requires some { 0 < length work.now.held }
    requires last { IsLast work.now held.now }
    requires is { held.now ≡ holding Spat (view.And a.now b.now) }
    ensures { IfOk result (Becomes work.now (kept work.now (holding Spat b.now ∷ []))) }
{
    let vars = work.goal.vars.len() as u32;
    let by = right_part(alloc, vars, a, b)?;
    let proof = replace_at_held(alloc, work, last_place(work), by)?;
    Ok(proof)
}

/// The second part is held.
#[tactic(auto, using(crate::proofs::Answered::wants_memory))]
fn second_part(
    alloc: Global,
    work: &Work,
    held: &Held,
    a: &Formula,
    b: &Formula,
) -> Result<Parts<Place>, StepFault>
    requires handed { IsHanded work.now }
    requires some { 0 < length work.now.held }
    requires last { IsLast work.now held.now }
    requires is { held.now ≡ holding Spat (view.And a.now b.now) }
    ensures { Answers (all_nodes (work_formulas work.now)) work.now (limited (table.second_part work.now (hand_at work.now held.now) b.now)) result }
{
    let new = with_one(alloc, work, Kind::Spat, b)?;
    let moved = second_kept(alloc, work, held, a, b)?;
    by_move_open(alloc, work, false, true, new, moved)
}

/// One part of a conjunction, where the other is dropped.
fn part_of_and(
    alloc: Global,
    work: &Work,
    held: &Held,
    a: &Formula,
    b: &Formula,
    p: bool,
    q: bool,
) -> Result<Parts<Place>, StepFault>
    requires handed { IsHanded work.now }
    requires some { 0 < length work.now.held }
    requires last { IsLast work.now held.now }
    requires spatial { held.now.kind ≡ Spat }
    requires formula { held.now.formula ≡ view.And a.now b.now }
    ensures { Answers (all_nodes (work_formulas work.now)) work.now (limited (table.fourth_way work.now (hand_at work.now held.now) held.now.kind p q)) result }
{
    if p {
        return second_part(alloc, work, held, a, b);
    }
    if q {
        return first_part(alloc, work, held, a, b);
    }
    Err(refuse_plain(Row::NotPair))
}

/// One part of what is spatial.
fn part_of_spatial(
    alloc: Global,
    work: &Work,
    held: &Held,
    p: bool,
    q: bool,
) -> Result<Parts<Place>, StepFault>
    requires handed { IsHanded work.now }
    requires some { 0 < length work.now.held }
    requires last { IsLast work.now held.now }
    requires spatial { held.now.kind ≡ Spat }
    ensures { Answers (all_nodes (work_formulas work.now)) work.now (limited (table.fourth_way work.now (hand_at work.now held.now) held.now.kind p q)) result }
{
    match &held.formula {
        Formula::And(a, b) => part_of_and(alloc, work, held, a.get(), b.get(), p, q),
        _ => Err(refuse_plain(Row::NotPair)),
    }
}

fn is_drop(p: &Pat) -> bool
    ensures { result ≡ table.is_drop p.now }
{
    match p {
        Pat::Drop => true,
        _ => false,
    }
}

/// One part, where the pattern of the other drops it.
fn fourth_way(
    alloc: Global,
    work: &Work,
    held: &Held,
    p: &Pat,
    q: &Pat,
) -> Result<Parts<Place>, StepFault>
    requires handed { IsHanded work.now }
    requires some { 0 < length work.now.held }
    requires last { IsLast work.now held.now }
    ensures { Answers (all_nodes (work_formulas work.now)) work.now (limited (fourth work.now (hand_at work.now held.now) p.now q.now)) result }
{
    let first = is_drop(p);
    let second = is_drop(q);
    match held.kind {
        Kind::Spat => part_of_spatial(alloc, work, held, first, second),
        Kind::Int => Err(refuse_plain(Row::NotPair)),
    }
}

/// The name that the pattern gives to a variable.
fn var_name(alloc: Global, goal: &Goal, p: &Pat) -> Result<Option<Name>, Memory>
    requires { IsFindable goal.now }
    ensures { IfOk result (λ name. name ≡ table.var_name goal.now p.now) }
{
    match p {
        Pat::PureName(name) => {
            let name = copy_name(alloc, name)?;
            Ok(Some(name))
        }
        Pat::PureFresh => {
            let name = fresh_name(alloc, goal)?;
            Ok(Some(name))
        }
        _ => Ok(None),
    }
}

/// The body of an existential, where the variable has this name, or one part of a conjunction.
#[tactic(auto, using(crate::proofs::Answered::wants_memory))]
fn with_name(
    alloc: Global,
    work: &Work,
    held: &Held,
    name: &Name,
    p: &Pat,
    q: &Pat,
) -> Result<Parts<Place>, StepFault>
    requires handed { IsHanded work.now }
    requires some { 0 < length work.now.held }
    requires last { IsLast work.now held.now }
    requires named { Some name.now ≡ table.var_name work.now.goal p.now }
    ensures { Answers (all_nodes (work_formulas work.now)) work.now (limited (other_ways work.now (hand_at work.now held.now) p.now q.now)) result }
{
    let vars = work.goal.vars.len() as u32;
    let Some(entry) = into_body(alloc, vars, held)? else {
        return fourth_way(alloc, work, held, p, q);
    };
    body_held(alloc, work, held, name, entry)
}

/// A variable and a body, or one part of a conjunction.
#[tactic(auto, using(crate::proofs::Answered::wants_memory))]
fn other_ways(
    alloc: Global,
    work: &Work,
    held: &Held,
    p: &Pat,
    q: &Pat,
) -> Result<Parts<Place>, StepFault>
    requires handed { IsHanded work.now }
    requires some { 0 < length work.now.held }
    requires last { IsLast work.now held.now }
    ensures { Answers (all_nodes (work_formulas work.now)) work.now (limited (other_ways work.now (hand_at work.now held.now) p.now q.now)) result }
{
    let Some(name) = var_name(alloc, &work.goal, p)? else {
        return fourth_way(alloc, work, held, p, q);
    };
    with_name(alloc, work, held, &name, p, q)
}

/// `[p q]`: both parts are held, an intuitionistic one's parts of a conjunction, a spatial one's of a separating conjunction;
/// else, where the first pattern names a variable, the goal gains that variable, and the body of an existential is held; else
/// one part of a conjunction is held, where the pattern of the other drops it.
///
/// It is refused where none of these applies, where the variable's name is in use, or is `_` and digits, and where the work
/// passes a limit.
#[tactic(auto, using(crate::proofs::Answered::wants_memory))]
pub fn pair(alloc: Global, work: &Work, p: &Pat, q: &Pat) -> Result<Parts<Place>, StepFault>
    requires handed { IsHanded work.now }
    requires some { 0 < length work.now.held }
    ensures { Answers (all_nodes (work_formulas work.now)) work.now (limited (table.pair p.now q.now work.now)) result }
{
    let held = last(work);
    let vars = work.goal.vars.len() as u32;
    let Some(entry) = into_parts(alloc, vars, held)? else {
        return other_ways(alloc, work, held, p, q);
    };
    both_parts(alloc, work, held, entry)
}

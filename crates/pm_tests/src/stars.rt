//! Moves in a goal's star, at every place.

ghost use Rattle.std.specs.Prelude.{◌≡◌, ◌+◌, ◌<◌, Some, length, slice_get, option_map, IfOk, IsTrue};
ghost use Rattle.pm_proof.specs.Trees.{conclusion};
ghost use Rattle.pm_star.specs.Stars.{shared, parts, work_parts, part_at};
ghost use Rattle.pm_samples.specs.Whole.{IsWhole};

use crate::given::truth;
use crate::proof_trees::{concludes, is_accepted};
use pm_goal::{Ctx, Fact, Facts, Goal, Held, Hyp, Kind, Work};
use pm_logic::{Formula, List, Memory, Name, Pure, Term, UNIT, copy, later, pers, same, sep, wand};
use pm_proof::{Proof, by_rule};
use pm_rules::{Entail, Rule};
use pm_samples::stated;
use pm_star::{
    bring_front, bring_front_held, drop_at, drop_at_held, duplicate, duplicate_held, partition,
    partition_held, replace_at, replace_at_held,
};
use std::alloc::Global;
use std::process::Abort;
use std::test::Fail;

/// A goal, and the parts of its star as they are put into it.
#[derive(Drop)]
struct Case {
    work: Work,
    parts: List<Formula>,
}

/// `⌜i = i⌝`
fn fact(i: u32) -> Pure {
    Pure::Eq(Term::Lit(i64::from(i)), Term::Lit(i64::from(i)))
}

/// `i ↦ 0`
fn cell(i: u32) -> Formula {
    Formula::Pts {
        loc: Term::Lit(i64::from(i)),
        units: UNIT,
        val: Term::Lit(0),
    }
}

fn name(alloc: Global, letter: char, i: u32) -> Result<Name, Memory> {
    let text = format!(in alloc; "{letter}{i}")?;
    Name::from_bytes(alloc, text.as_bytes())
}

/// How many there are, where they are fewer than 1,000.
fn count_of(parts: &List<Formula>) -> u32 {
    parts.len().min(1_000) as u32
}

impl Case {
    fn new(alloc: Global) -> Case {
        let goal = Goal {
            vars: List::new(alloc),
            pures: Facts::new(alloc),
            ints: Ctx::new(alloc),
            spats: Ctx::new(alloc),
            concl: truth(),
        };
        let held = List::new(alloc);
        Case {
            work: Work { goal, held },
            parts: List::new(alloc),
        }
    }

    fn add_fact(&mut self, alloc: Global) -> Result<(), Memory> {
        let i = count_of(&self.parts);
        let name = name(alloc, 'F', i)?;
        if self.work.goal.pures.place(&name).is_none() {
            let pure = fact(i);
            self.work.goal.pures.push(Fact { name, pure })?;
        }
        self.parts.push(Formula::Pure(fact(i)))
    }

    fn add_int(&mut self, alloc: Global) -> Result<(), Memory> {
        let i = count_of(&self.parts);
        let name = name(alloc, 'I', i)?;
        if self.work.goal.ints.place(&name).is_none() {
            let formula = cell(i);
            self.work.goal.ints.push(Hyp { name, formula })?;
        }
        self.parts.push(pers(alloc, cell(i))?)
    }

    fn add_spat(&mut self, alloc: Global) -> Result<(), Memory> {
        let i = count_of(&self.parts);
        let name = name(alloc, 'S', i)?;
        if self.work.goal.spats.place(&name).is_none() {
            let formula = cell(i);
            self.work.goal.spats.push(Hyp { name, formula })?;
        }
        self.parts.push(cell(i))
    }

    fn add_held(&mut self, alloc: Global, kind: Kind) -> Result<(), Memory> {
        let i = count_of(&self.parts);
        self.work.held.push(Held {
            kind,
            formula: cell(i),
        })?;
        self.parts.push(match kind {
            Kind::Int => pers(alloc, cell(i))?,
            Kind::Spat => cell(i),
        })
    }
}

/// So many facts, as many intuitionistic hypotheses, as many spatial ones, and so many of both kinds in hand.
fn case_of(alloc: Global, each: u32, more: u32, held: u32) -> Result<Case, Memory> {
    let mut case = Case::new(alloc);
    for _ in 0..each {
        case.add_fact(alloc)?;
    }
    for _ in 0..each {
        case.add_int(alloc)?;
    }
    for _ in 0..each.saturating_add(more) {
        case.add_spat(alloc)?;
    }
    for i in 0..held {
        let kind = if i % 3 == 0 { Kind::Int } else { Kind::Spat };
        case.add_held(alloc, kind)?;
    }
    Ok(case)
}

/// The star of the parts at these places, in this order.
fn star_of(alloc: Global, parts: &List<Formula>, places: &[usize]) -> Result<Formula, Memory> {
    let mut star = truth();
    for place in places.iter().rev() {
        let part = parts.get(*place).ok_or(Memory)?;
        star = sep(alloc, copy(alloc, part)?, star)?;
    }
    Ok(star)
}

/// A place in front, if any, and those below `count` without one.
fn places(
    alloc: Global,
    front: Option<usize>,
    count: usize,
    gone: Option<usize>,
) -> Result<Vec<usize>, Memory> {
    let mut places = Vec::new(alloc);
    if let Some(place) = front {
        places.push(place)?;
    }
    for place in 0..count {
        if gone != Some(place) {
            places.push(place)?;
        }
    }
    Ok(places)
}

/// How many parts may be used any number of times.
#[tactic(auto, using(crate::proofs::Counts::shared_count))]
fn shared_count(goal: &Goal) -> u128
    ensures { result ≡ length (shared goal.now) }
{
    goal.pures.len() as u128 + goal.ints.len() as u128
}

#[tactic(auto, using(crate::proofs::Counts::goal_total))]
fn goal_count(goal: &Goal) -> u128
    ensures { result ≡ length (parts goal.now) }
{
    goal.pures.len() as u128 + goal.ints.len() as u128 + goal.spats.len() as u128
}

#[tactic(auto, using(crate::proofs::Counts::work_total))]
fn work_count(work: &Work) -> u128
    ensures { result ≡ length (work_parts work.now) }
{
    let goal = &work.goal;
    let contexts = goal.pures.len() as u128 + goal.ints.len() as u128 + goal.spats.len() as u128;
    contexts + work.held.len() as u128
}

#[derive(Clone, Copy)]
enum Move {
    Front,
    Double,
    Omit,
}

/// The move's proof, by the call for goals where nothing is in hand, and else by the other one.
fn moved(
    rt: &impl Abort,
    alloc: Global,
    work: &Work,
    what: Move,
    place: u32,
) -> Result<Proof, Memory>
    ensures { IfOk result (λ p. IsWhole p) }
{
    assert!(rt; work.goal.vars.len() == 0);
    if work.held.is_empty() {
        moved_in_goal(rt, alloc, &work.goal, what, place)
    } else {
        moved_in_work(rt, alloc, work, what, place)
    }
}

#[tactic(auto, using(pm_samples::proofs::Whole::moved_whole))]
fn moved_in_goal(
    rt: &impl Abort,
    alloc: Global,
    goal: &Goal,
    what: Move,
    place: u32,
) -> Result<Proof, Memory>
    requires { length goal.now.vars ≡ 0 }
    ensures { IfOk result (λ p. IsWhole p) }
{
    match what {
        Move::Front => {
            assert!(rt; u128::from(place) < goal_count(goal));
            bring_front(alloc, goal, place)
        }
        Move::Double => {
            assert!(rt; u128::from(place) < shared_count(goal));
            duplicate(alloc, goal, place)
        }
        Move::Omit => {
            assert!(rt; u128::from(place) < goal_count(goal));
            drop_at(alloc, goal, place)
        }
    }
}

#[tactic(auto, using(pm_samples::proofs::Whole::moved_whole))]
fn moved_in_work(
    rt: &impl Abort,
    alloc: Global,
    work: &Work,
    what: Move,
    place: u32,
) -> Result<Proof, Memory>
    requires { length work.now.goal.vars ≡ 0 }
    ensures { IfOk result (λ p. IsWhole p) }
{
    match what {
        Move::Front => {
            assert!(rt; u128::from(place) < work_count(work));
            bring_front_held(alloc, work, place)
        }
        Move::Double => {
            assert!(rt; u128::from(place) < shared_count(&work.goal));
            duplicate_held(alloc, work, place)
        }
        Move::Omit => {
            assert!(rt; u128::from(place) < work_count(work));
            drop_at_held(alloc, work, place)
        }
    }
}

/// What the move makes of the star.
fn expected(alloc: Global, case: &Case, what: Move, place: usize) -> Result<Formula, Memory> {
    let count = case.parts.len();
    let places = match what {
        Move::Front => places(alloc, Some(place), count, Some(place))?,
        Move::Double => places(alloc, Some(place), count, None)?,
        Move::Omit => places(alloc, None, count, Some(place))?,
    };
    star_of(alloc, &case.parts, places.as_slice())
}

/// The star as it stands.
fn whole(alloc: Global, case: &Case) -> Result<Formula, Memory> {
    let places = places(alloc, None, case.parts.len(), None)?;
    star_of(alloc, &case.parts, places.as_slice())
}

/// A derivation states that the star entails what became of it.
fn is_stated(rt: &impl Abort, alloc: Global, proof: Proof) -> Result<(), Memory>
    requires { IsWhole proof }
{
    let e = proof.conclusion();
    let left = copy(alloc, &e.left)?;
    let formula = wand(alloc, left, copy(alloc, &e.right)?)?;
    let proof = stated(alloc, proof)?;
    is_accepted(rt, alloc, proof, &formula)
}

/// The move at each of so many places; every 40th proof is written down.
fn moves(
    rt: &impl Abort,
    alloc: Global,
    case: &Case,
    what: Move,
    count: u32,
) -> Result<(), Memory> {
    let left = whole(alloc, case)?;
    for place in 0..count {
        let proof = moved(rt, alloc, &case.work, what, place)?;
        let right = expected(alloc, case, what, place as usize)?;
        concludes(rt, &proof, &left, &right, 0);
        if place % 40 == 0 {
            is_stated(rt, alloc, proof)?;
        }
    }
    Ok(())
}

/// Puts what a proof says in place of the spatial hypothesis `i`, by the call for goals where nothing is in hand, and else
/// by the other one.
fn replaced(
    rt: &impl Abort,
    alloc: Global,
    work: &Work,
    i: usize,
    by: Proof,
) -> Result<Proof, Memory> {
    assert!(rt; work.goal.vars.len() == 0);
    assert!(rt; by.conclusion().vars == 0);
    if work.held.is_empty() {
        replaced_in_goal(rt, alloc, &work.goal, i, by)
    } else {
        replaced_in_work(rt, alloc, work, i, by)
    }
}

/// Whether this is the formula of the spatial hypothesis `i`.
fn is_spat(goal: &Goal, i: usize, formula: &Formula) -> bool
    ensures { IsTrue result → (Some formula.now ≡ option_map (λ h. h.formula) (slice_get goal.now.spats i)) }
{
    match goal.spats.formula(i) {
        Some(f) => same(formula, f),
        None => false,
    }
}

/// The place of the spatial hypothesis `i`: behind the facts and the intuitionistic hypotheses.
fn place_behind(goal: &Goal, i: usize) -> u128
    ensures { result ≡ length goal.now.pures + length goal.now.ints + i }
{
    goal.pures.len() as u128 + goal.ints.len() as u128 + i as u128
}

/// The place of the spatial hypothesis, whose formula this is.
#[tactic(auto, using(crate::proofs::Counts::spat_part, crate::proofs::Counts::spat_within))]
fn place_of(rt: &impl Abort, goal: &Goal, i: usize, formula: &Formula) -> u32
    ensures within { result < length (parts goal.now) }
    ensures part { formula.now ≡ part_at (parts goal.now) result }
{
    let place = place_behind(goal, i);
    assert!(rt; i < goal.spats.len());
    assert!(rt; is_spat(goal, i, formula));
    assert!(rt; place < 1000);
    place as u32
}

fn replaced_in_goal(
    rt: &impl Abort,
    alloc: Global,
    goal: &Goal,
    i: usize,
    by: Proof,
) -> Result<Proof, Memory>
    requires vars { length goal.now.vars ≡ 0 }
    requires same { (conclusion by).vars ≡ 0 }
{
    let place = place_of(rt, goal, i, &by.conclusion().left);
    replace_at(alloc, goal, place, by)
}

#[tactic(auto, using(crate::proofs::Counts::part_held, crate::proofs::Counts::within_held))]
fn replaced_in_work(
    rt: &impl Abort,
    alloc: Global,
    work: &Work,
    i: usize,
    by: Proof,
) -> Result<Proof, Memory>
    requires vars { length work.now.goal.vars ≡ 0 }
    requires same { (conclusion by).vars ≡ 0 }
{
    let place = place_of(rt, &work.goal, i, &by.conclusion().left);
    replace_at_held(alloc, work, place, by)
}

/// A later before the part, by the rule that introduces it.
fn delayed(alloc: Global, part: &Formula) -> Result<Proof, Memory> {
    let e = Entail {
        vars: 0,
        left: copy(alloc, part)?,
        right: later(alloc, copy(alloc, part)?)?,
    };
    by_rule(alloc, Rule::LaterIntro, None, None, e)
}

/// A later before each of the spatial hypotheses.
fn replacements(
    rt: &impl Abort,
    alloc: Global,
    case: &mut Case,
    shared: u32,
) -> Result<(), Memory> {
    let left = whole(alloc, case)?;
    for i in 0..case.work.goal.spats.len() {
        let place = i.saturating_add(shared as usize);
        let part = case.parts.get(place).ok_or(Memory)?;
        let after = later(alloc, copy(alloc, part)?)?;
        let proof = replaced(rt, alloc, &case.work, i, delayed(alloc, part)?)?;
        let right = with_last(alloc, case, after, place)?;
        concludes(rt, &proof, &left, &right, 0);
    }
    Ok(())
}

/// The star with this part in place of another one.
fn with_last(
    alloc: Global,
    case: &mut Case,
    part: Formula,
    place: usize,
) -> Result<Formula, Memory> {
    let count = case.parts.len();
    let mut list = Vec::new(alloc);
    for i in 0..count {
        list.push(if i == place { count } else { i })?;
    }
    case.parts.push(part)?;
    let star = star_of(alloc, &case.parts, list.as_slice())?;
    case.parts.pop();
    Ok(star)
}

/// Which parts go to the left.
#[derive(Clone, Copy)]
enum Choice {
    All,
    None,
    Others,
}

fn is_chosen(choice: Choice, i: u32) -> bool {
    match choice {
        Choice::All => true,
        Choice::None => false,
        Choice::Others => i % 2 == 0,
    }
}

/// The left and the right star, and the places that were listed for the left one.
fn deal(
    alloc: Global,
    case: &Case,
    choice: Choice,
    listed: &mut List<u32>,
) -> Result<Formula, Memory> {
    let goal = &case.work.goal;
    let shared = shared_count(goal);
    let mut left = Vec::new(alloc);
    let mut right = Vec::new(alloc);
    for i in 0..count_of(&case.parts) {
        let is_shared = u128::from(i) < shared;
        if is_chosen(choice, i) {
            listed.push(i)?;
        }
        if is_shared || is_chosen(choice, i) {
            left.push(i as usize)?;
        }
        if is_shared || !is_chosen(choice, i) {
            right.push(i as usize)?;
        }
    }
    let left = star_of(alloc, &case.parts, left.as_slice())?;
    let right = star_of(alloc, &case.parts, right.as_slice())?;
    sep(alloc, left, right)
}

/// Deals the parts into two stars.
#[tactic(auto, using(pm_samples::proofs::Whole::moved_whole))]
fn parted(rt: &impl Abort, alloc: Global, work: &Work, left: &List<u32>) -> Result<Proof, Memory>
    ensures { IfOk result (λ p. IsWhole p) }
{
    assert!(rt; work.goal.vars.len() == 0);
    let proof = if work.held.is_empty() {
        partition(alloc, &work.goal, left)?
    } else {
        partition_held(alloc, work, left)?
    };
    Ok(proof)
}

fn partitions(rt: &impl Abort, alloc: Global, case: &Case, choice: Choice) -> Result<(), Memory> {
    let mut listed = List::new(alloc);
    let right = deal(alloc, case, choice, &mut listed)?;
    let proof = parted(rt, alloc, &case.work, &listed)?;
    concludes(rt, &proof, &whole(alloc, case)?, &right, 0);
    is_stated(rt, alloc, proof)
}

/// All moves, of which those that duplicate are at the first places.
fn all_moves(rt: &impl Abort, alloc: Global, mut case: Case, shared: u32) -> Result<(), Memory> {
    let count = count_of(&case.parts);
    moves(rt, alloc, &case, Move::Front, count)?;
    moves(rt, alloc, &case, Move::Double, shared)?;
    moves(rt, alloc, &case, Move::Omit, count)?;
    replacements(rt, alloc, &mut case, shared)?;
    for choice in [Choice::All, Choice::None, Choice::Others] {
        partitions(rt, alloc, &case, choice)?;
    }
    Ok(())
}

#[test]
fn stars_of_goals(rt: HostRuntime) -> Result<(), Fail> {
    let alloc = rt.alloc();
    all_moves(&rt, alloc, case_of(alloc, 0, 0, 0)?, 0)?;
    all_moves(&rt, alloc, case_of(alloc, 0, 1, 0)?, 0)?;
    all_moves(&rt, alloc, case_of(alloc, 43, 1, 0)?, 86)?;
    Ok(())
}

#[test]
fn stars_of_works(rt: HostRuntime) -> Result<(), Fail> {
    let alloc = rt.alloc();
    all_moves(&rt, alloc, case_of(alloc, 0, 0, 1)?, 0)?;
    all_moves(&rt, alloc, case_of(alloc, 35, 0, 25)?, 70)?;
    Ok(())
}

//! Hypotheses that become others in their places.

ghost use Rattle.std.specs.Prelude.{◌≡◌, ◌+◌, ◌<◌, ◌^◌, ◌++◌, ◌∷◌, [], Some, None, IfOk, OnOk, length, position, set};
ghost use Rattle.std.specs.Str.{bytes_eq};
ghost use Rattle.pm_logic.specs.declared.formula.Formula.TheViews as view;
ghost use Rattle.pm_goal.specs.Left.{left_of_work, of_kind};
ghost use Rattle.pm_proof.specs.Trees.{entail, conclusion};
ghost use Rattle.pm_proof.specs.Known.{Proves, Every};
ghost use Rattle.pm_schemes.specs.Sketches.{deepest};
ghost use Rattle.pm_star.specs.Stars.{star, work_parts, part_at, MovesBy};
ghost use Rattle.pm_star.specs.Levels.{left_side, right_side};
ghost use Rattle.pm_table.specs.Heap as table;
ghost use Rattle.pm_table.specs.Stepping.{NamesDiffer};
ghost use Rattle.pm_table.specs.Works as works;
ghost use Rattle.pm_action.specs.Acting.{IsHanded};
ghost use Rattle.pm_action.specs.Naming.{HypsDiffer};
ghost use Rattle.pm_loeb.specs.Spots.{IsSpot, IsThere, IsKinded, MovesOn, Puts};

use crate::finishing::{at_rest, finish_one_over};
use pm_action::wanted;
use pm_goal::{Ctx, Goal, Hyp, Kind, StepFault, Work, copy_goal};
use pm_logic::{Formula, Memory, Name, copy, copy_name};
use pm_proof::{Parts, Proof};
use pm_schemes::{Letters, Pattern, Scheme, derive, gap, pers, step};
use pm_star::{compose, replace_at_held};
use pm_table::Place;
use std::alloc::Global;

const A: Pattern = Pattern::Letter(0);

const B: Pattern = Pattern::Letter(1);

/// From A ⊢ B: □ A ⊢ □ B.
static UNDER_BOX: Scheme = step!(PersMono, pers!(A) => pers!(B); gap!(A => B));

/// A hypothesis that was looked up, with its place in the star of the goal.
#[derive(Drop)]
pub struct Spot {
    pub place: u32,
    pub kind: Kind,
    pub formula: Formula,
}

fn spatial(alloc: Global, goal: &Goal, name: &Name, i: usize) -> Result<Option<Spot>, Memory>
    requires few { length goal.now.pures + length goal.now.ints + length goal.now.spats < 2 ^ 32 }
    requires apart { NamesDiffer goal.now }
    requires found { position (λ h. bytes_eq name.now h.name) goal.now.spats ≡ Some i }
    ensures { IfOk result (IsSpot goal.now name.now) }
{
    match goal.spats.formula(i) {
        Some(formula) => {
            let place = (goal.pures.len() + goal.ints.len() + i) as u32;
            let formula = copy(alloc, formula)?;
            let kind = Kind::Spat;
            Ok(Some(Spot {
                place,
                kind,
                formula,
            }))
        }
        None => unreachable!(),
    }
}

fn intuitionistic(alloc: Global, goal: &Goal, name: &Name, i: usize) -> Result<Option<Spot>, Memory>
    requires few { length goal.now.pures + length goal.now.ints + length goal.now.spats < 2 ^ 32 }
    requires apart { NamesDiffer goal.now }
    requires found { position (λ h. bytes_eq name.now h.name) goal.now.ints ≡ Some i }
    ensures { IfOk result (IsSpot goal.now name.now) }
{
    match goal.ints.formula(i) {
        Some(formula) => {
            let place = (goal.pures.len() + i) as u32;
            let formula = copy(alloc, formula)?;
            let kind = Kind::Int;
            Ok(Some(Spot {
                place,
                kind,
                formula,
            }))
        }
        None => unreachable!(),
    }
}

/// The hypothesis of the name, and `None` where there is none. The error is want of memory.
pub fn find_hyp(alloc: Global, goal: &Goal, name: &Name) -> Result<Option<Spot>, Memory>
    requires few { length goal.now.pures + length goal.now.ints + length goal.now.spats < 2 ^ 32 }
    requires apart { NamesDiffer goal.now }
    ensures { IfOk result (IsSpot goal.now name.now) }
{
    if let Some(i) = goal.ints.place(name) {
        return intuitionistic(alloc, goal, name, i);
    }
    if let Some(i) = goal.spats.place(name) {
        return spatial(alloc, goal, name, i);
    }
    Ok(None)
}

/// Adds a copy of the hypothesis, with the new formula where it has the name.
fn push_hyp(
    alloc: Global,
    name: &Name,
    new: &Formula,
    other: &Name,
    formula: &Formula,
    out: &mut Ctx,
) -> Result<(), Memory>
    requires { position (λ g. bytes_eq other.now g.name) out.now ≡ None }
    ensures { OnOk result (out.new ≡ out.old ++ table.put_in name.now new.now (works.hyp other.now formula.now ∷ [])) }
{
    let same = name.bytes() == other.bytes();
    let formula = copy(alloc, if same { new } else { formula })?;
    let name = copy_name(alloc, other)?;
    out.push(Hyp { name, formula })
}

/// The hypotheses, the one of the name with the new formula.
fn put_in(alloc: Global, name: &Name, new: &Formula, hyps: &Ctx) -> Result<Ctx, Memory>
    requires { HypsDiffer hyps.now }
    ensures { IfOk result (λ hs. hs ≡ table.put_in name.now new.now hyps.now) }
{
    let len = hyps.len();
    let mut out = Ctx::new(alloc);
    let mut next = 0;
    while next < len {
        let i = next;
        next += 1;
        if let Some(other) = hyps.name(i) {
            if let Some(formula) = hyps.formula(i) {
                push_hyp(alloc, name, new, other, formula, &mut out)?;
            }
        }
    }
    Ok(out)
}

/// The goal in which the hypothesis of the name has the new formula.
fn put(alloc: Global, goal: &Goal, name: &Name, new: &Formula) -> Result<Goal, Memory>
    requires { NamesDiffer goal.now }
    ensures { IfOk result (λ g. g ≡ table.put name.now new.now goal.now) }
{
    let ints = put_in(alloc, name, new, &goal.ints)?;
    let spats = put_in(alloc, name, new, &goal.spats)?;
    let mut made = copy_goal(alloc, goal)?;
    made.ints = ints;
    made.spats = spats;
    Ok(made)
}

/// From `A ⊢ B`, which is its hole: `□ A ⊢ □ B`.
#[tactic(auto, unfolding(pm_schemes::specs::Tests::passes, pm_schemes::specs::Tests::fits_row))]
fn under_box(alloc: Global, vars: u32, a: &Formula, b: &Formula) -> Result<Proof, Memory>
    ensures { IfOk result (λ p. Proves Every (entail vars (view.Pers a.now) (view.Pers b.now)) (entail vars a.now b.now ∷ []) 1 (deepest (a.now ∷ b.now ∷ []) [] + 1) vars p) }
{
    let letters = Letters {
        formulas: &[a, b],
        pures: &[],
    };
    let proof = derive(alloc, vars, &UNDER_BOX, letters)?;
    Ok(proof)
}

/// The same, with both sides as they stand in a star.
fn kinded(alloc: Global, kind: Kind, by: Proof) -> Result<Proof, Memory>
    ensures { IfOk result (IsKinded kind by) }
{
    match kind {
        Kind::Int => {
            let e = by.conclusion();
            let step = under_box(alloc, e.vars, &e.left, &e.right)?;
            Ok(step.fill(0, by))
        }
        Kind::Spat => Ok(by),
    }
}

/// From the star to the star with what `by` proves of the part in its place.
fn exchanged(alloc: Global, work: &Work, spot: &Spot, by: Proof) -> Result<Proof, Memory>
    requires handed { IsHanded work.now }
    requires within { spot.now.place < length (work_parts work.now) }
    requires left { left_side by ≡ part_at (work_parts work.now) spot.now.place }
    requires vars { (conclusion by).vars ≡ length work.now.goal.vars }
    ensures { IfOk result (λ p. MovesBy by (length work.now.goal.vars) (length (work_parts work.now)) (left_of_work work.now) (star (set (work_parts work.now) spot.now.place (right_side by))) p) }
{
    let proof = replace_at_held(alloc, work, spot.place, by)?;
    Ok(proof)
}

/// The new work, from a proof of its star, in place of the old one.
fn move_on(alloc: Global, made: Work, moved: Proof) -> Result<Parts<Place>, StepFault>
    requires few { length made.goal.vars < 2 ^ 32 }
    requires vars { (conclusion moved).vars ≡ length made.goal.vars }
    requires meet { right_side moved ≡ left_of_work made }
    ensures { MovesOn made moved result }
{
    let wanted = wanted(alloc, &made)?;
    let proof = compose(alloc, moved, wanted)?;
    finish_one_over(alloc, made, proof)
}

/// The hypothesis of the name becomes what `by` proves of it.
pub fn become_one(
    alloc: Global,
    work: &Work,
    name: &Name,
    spot: &Spot,
    new: &Formula,
    by: Proof,
) -> Result<Parts<Place>, StepFault>
    requires handed { IsHanded work.now }
    requires nothing { work.now.held ≡ [] }
    requires there { IsThere work.now.goal name.now spot.now }
    requires says { conclusion by ≡ entail (length work.now.goal.vars) spot.now.formula new.now }
    ensures { Puts work.now name.now spot.now.formula new.now by result }
{
    let part = kinded(alloc, spot.kind, by)?;
    let moved = exchanged(alloc, work, spot, part)?;
    let goal = put(alloc, &work.goal, name, new)?;
    let made = at_rest(alloc, goal);
    move_on(alloc, made, moved)
}

//! The elimination of an update.

ghost use Rattle.std.specs.Prelude.{◌≡◌, ◌+◌, ◌<◌, ◌^◌, [], ◌∷◌, IfOk, length};
ghost use Rattle.pm_logic.specs.declared.formula.Formula.TheViews as view;
ghost use Rattle.pm_goal.specs.declared.work.Kind.TheVariants as kind;
ghost use Rattle.pm_goal.specs.Left.{of_kind, left_of_work};
ghost use Rattle.pm_proof.specs.Trees.{entail};
ghost use Rattle.pm_proof.specs.Known.{Proves, Every};
ghost use Rattle.pm_schemes.specs.Sketches.{deepest};
ghost use Rattle.pm_table.specs.Limits.{all_nodes, work_formulas, hypotheses, limited};
ghost use Rattle.pm_table.specs.Works.{hold};
ghost use Rattle.pm_table.specs.Modalities as table;
ghost use Rattle.pm_action.specs.Acting.{Answers, IsHanded, IsLast};
ghost use Rattle.pm_hand.specs.Changed.{dropped, relast};
ghost use Rattle.pm_modal.specs.Updates.{IsFront, IsTail, IsStep, IsEliminated};

use pm_action::{finish_one, last, last_place, others, refuse_plain, wanted};
use pm_goal::{Held, Kind, Row, StepFault, Work, copy_goal, copy_work, left_of_work};
use pm_logic::{Formula, Memory, copy};
use pm_proof::{Parts, Proof};
use pm_schemes::{Letters, Pattern, Scheme, derive, gap, pers, sep, step, upd};
use pm_star::{bring_front_held, compose, sink_held};
use pm_table::Place;
use std::alloc::Global;

const A: Pattern = Pattern::Letter(0);

const X: Pattern = Pattern::Letter(1);

const B: Pattern = Pattern::Letter(2);

const R: Pattern = Pattern::Letter(3);

const C: Pattern = Pattern::Letter(4);

/// A ⊢ A
static SAME: Scheme = step!(Refl, A => A);

/// □ A ⊢ A
static UNBOXED: Scheme = step!(PersElim, pers!(A) => A);

/// From X ⊢ A ∗ R, A ⊢ |==> B and B ∗ R ⊢ |==> C: X ⊢ |==> C.
static ELIMINATED: Scheme = step!(
    Trans, X => upd!(C);
    gap!(X => sep!(A, R));
    step!(
        Trans, sep!(A, R) => upd!(C);
        step!(
            Trans, sep!(A, R) => sep!(R, upd!(B));
            step!(SepMono, sep!(A, R) => sep!(upd!(B), R); gap!(A => upd!(B)); step!(Refl, R => R));
            step!(SepComm, sep!(upd!(B), R) => sep!(R, upd!(B)))
        );
        step!(
            Trans, sep!(R, upd!(B)) => upd!(C);
            step!(UpdFrame, sep!(R, upd!(B)) => upd!(sep!(R, B)));
            step!(
                Trans, upd!(sep!(R, B)) => upd!(C);
                step!(
                    UpdMono, upd!(sep!(R, B)) => upd!(upd!(C));
                    step!(
                        Trans, sep!(R, B) => upd!(C);
                        step!(SepComm, sep!(R, B) => sep!(B, R));
                        gap!(sep!(B, R) => upd!(C))
                    )
                );
                step!(UpdTrans, upd!(upd!(C)) => upd!(C))
            )
        )
    )
);

#[tactic(auto, unfolding(pm_schemes::specs::Tests::passes, pm_schemes::specs::Tests::fits_row))]
fn same(alloc: Global, vars: u32, f: &Formula) -> Result<Proof, Memory>
    ensures { IfOk result (λ p. Proves Every (entail vars f.now f.now) [] 1 (deepest (f.now ∷ []) []) vars p) }
{
    let letters = Letters {
        formulas: &[f],
        pures: &[],
    };
    let proof = derive(alloc, vars, &SAME, letters)?;
    Ok(proof)
}

#[tactic(auto, unfolding(pm_schemes::specs::Tests::passes, pm_schemes::specs::Tests::fits_row))]
fn unboxed(alloc: Global, vars: u32, f: &Formula) -> Result<Proof, Memory>
    ensures { IfOk result (λ p. Proves Every (entail vars (view.Pers f.now) f.now) [] 1 (deepest (f.now ∷ []) [] + 1) vars p) }
{
    let letters = Letters {
        formulas: &[f],
        pures: &[],
    };
    let proof = derive(alloc, vars, &UNBOXED, letters)?;
    Ok(proof)
}

/// From a formula as it stands in the star to the formula.
fn plain(alloc: Global, vars: u32, kind: Kind, f: &Formula) -> Result<Proof, Memory>
    ensures { IfOk result (λ p. Proves Every (entail vars (of_kind kind f.now) f.now) [] 1 (deepest (f.now ∷ []) [] + 1) vars p) }
{
    match kind {
        Kind::Int => unboxed(alloc, vars, f),
        Kind::Spat => same(alloc, vars, f),
    }
}

/// A formula of the kind, as it stands in the star.
fn part_of(alloc: Global, kind: Kind, formula: &Formula) -> Result<Formula, Memory>
    ensures { IfOk result (λ f. f ≡ of_kind kind formula.now) }
{
    let formula = copy(alloc, formula)?;
    match kind {
        Kind::Int => pm_logic::pers(alloc, formula),
        Kind::Spat => Ok(formula),
    }
}

#[tactic(auto, unfolding(pm_schemes::specs::Tests::passes, pm_schemes::specs::Tests::fits_row))]
fn update_step(
    alloc: Global,
    vars: u32,
    a: &Formula,
    x: &Formula,
    b: &Formula,
    r: &Formula,
    c: &Formula,
) -> Result<Proof, Memory>
    ensures { IfOk result (λ p. IsStep vars a.now x.now b.now r.now c.now p) }
{
    let letters = Letters {
        formulas: &[a, x, b, r, c],
        pures: &[],
    };
    let proof = derive(alloc, vars, &ELIMINATED, letters)?;
    Ok(proof)
}

/// The work without what is last in hand.
fn dropped(alloc: Global, work: &Work) -> Result<Work, Memory>
    requires { 0 < length work.now.held }
    ensures { IfOk result (λ w. w ≡ dropped work.now) }
{
    let goal = copy_goal(alloc, &work.goal)?;
    let held = others(alloc, work)?;
    Ok(Work { goal, held })
}

/// From the star to what is last in hand beside the star of the others.
fn front(alloc: Global, work: &Work, held: &Held) -> Result<Proof, Memory>
    requires handed { IsHanded work.now }
    requires some { 0 < length work.now.held }
    requires last { IsLast work.now held.now }
    ensures { IfOk result (λ p. IsFront work.now held.now p) }
{
    let proof = bring_front_held(alloc, work, last_place(work))?;
    Ok(proof)
}

/// How many parts the star has.
fn count(work: &Work) -> u32
    requires { hypotheses work.now < 2 ^ 32 }
    ensures { result ≡ hypotheses work.now }
{
    let goal = &work.goal;
    (goal.pures.len() + goal.ints.len() + goal.spats.len() + work.held.len()) as u32
}

/// From `b` beside the star to the conclusion, by what the work with `b` in hand means.
fn tail(alloc: Global, rest: &Work, b: &Formula) -> Result<Proof, Memory>
    requires vars { length rest.now.goal.vars < 2 ^ 32 }
    requires few { hypotheses rest.now < 2 ^ 32 }
    ensures { IfOk result (λ p. IsTail rest.now b.now p) }
{
    let sunk = sink_held(alloc, rest, b, count(rest))?;
    let new = holding(alloc, rest, b)?;
    let wanted = wanted(alloc, &new)?;
    let proof = compose(alloc, sunk, wanted)?;
    Ok(proof)
}

/// The work with `b` in hand, too, as spatial.
fn holding(alloc: Global, rest: &Work, b: &Formula) -> Result<Work, Memory>
    ensures { IfOk result (λ w. w ≡ hold kind.Spat b.now rest.now) }
{
    let mut work = copy_work(alloc, rest)?;
    let formula = copy(alloc, b)?;
    work.held.push(Held {
        kind: Kind::Spat,
        formula,
    })?;
    Ok(work)
}

/// From the star to the update of `c`, by three steps that are its holes.
fn stepping(
    alloc: Global,
    work: &Work,
    held: &Held,
    b: &Formula,
    c: &Formula,
    rest: &Work,
) -> Result<Proof, Memory>
    requires vars { length work.now.goal.vars < 2 ^ 32 }
    ensures { IfOk result (λ p. IsStep (length work.now.goal.vars) (of_kind held.now.kind held.now.formula) (left_of_work work.now) b.now (left_of_work rest.now) c.now p) }
{
    let vars = work.goal.vars.len() as u32;
    let a = part_of(alloc, held.kind, &held.formula)?;
    let x = left_of_work(alloc, work)?;
    let r = left_of_work(alloc, rest)?;
    let proof = update_step(alloc, vars, &a, &x, b, &r, c)?;
    Ok(proof)
}

/// What the work means, from what it means with the update's content in hand.
fn joined(
    alloc: Global,
    work: &Work,
    held: &Held,
    b: &Formula,
    c: &Formula,
    rest: &Work,
    tail: Proof,
) -> Result<Proof, Memory>
    requires handed { IsHanded work.now }
    requires some { 0 < length work.now.held }
    requires last { IsLast work.now held.now }
    requires update { held.now.formula ≡ view.Upd b.now }
    requires concl { work.now.goal.concl ≡ view.Upd c.now }
    requires rest { rest.now ≡ dropped work.now }
    requires tail { IsTail rest.now b.now tail }
    ensures { IfOk result (λ p. IsEliminated work.now b.now p) }
{
    let front = front(alloc, work, held)?;
    let opened = plain(alloc, work.goal.vars.len() as u32, held.kind, &held.formula)?;
    let step = stepping(alloc, work, held, b, c, rest)?;
    Ok(step.fill(2, tail).fill(1, opened).fill(0, front))
}

/// What is in the update that is last in hand is there in its place.
fn eliminate(
    alloc: Global,
    work: &Work,
    held: &Held,
    b: &Formula,
    c: &Formula,
) -> Result<Parts<Place>, StepFault>
    requires handed { IsHanded work.now }
    requires some { 0 < length work.now.held }
    requires last { IsLast work.now held.now }
    requires update { held.now.formula ≡ view.Upd b.now }
    requires concl { work.now.goal.concl ≡ view.Upd c.now }
    ensures { Answers (all_nodes (work_formulas work.now)) work.now (limited (table.elim_update work.now)) result }
{
    let rest = dropped(alloc, work)?;
    let tail = tail(alloc, &rest, b)?;
    let proof = joined(alloc, work, held, b, c, &rest, tail)?;
    let new = holding(alloc, &rest, b)?;
    finish_one(alloc, new, proof)
}

/// The update is eliminated where the conclusion is an update.
fn under_conclusion(
    alloc: Global,
    work: &Work,
    held: &Held,
    b: &Formula,
) -> Result<Parts<Place>, StepFault>
    requires handed { IsHanded work.now }
    requires some { 0 < length work.now.held }
    requires last { IsLast work.now held.now }
    requires update { held.now.formula ≡ view.Upd b.now }
    ensures { Answers (all_nodes (work_formulas work.now)) work.now (limited (table.elim_update work.now)) result }
{
    match &work.goal.concl {
        Formula::Upd(c) => eliminate(alloc, work, held, b, c.get()),
        _ => Err(refuse_plain(Row::ConclusionNotUpdate)),
    }
}

/// `>p`: the update that is last in hand, `|==> B`, becomes `B`, as spatial, where the conclusion is an update.
///
/// It is refused where it is no update, where the conclusion is none, and where the work passes a limit.
pub fn elim_update(alloc: Global, work: &Work) -> Result<Parts<Place>, StepFault>
    requires handed { IsHanded work.now }
    requires some { 0 < length work.now.held }
    ensures { Answers (all_nodes (work_formulas work.now)) work.now (limited (table.elim_update work.now)) result }
{
    let held = last(work);
    match &held.formula {
        Formula::Upd(b) => under_conclusion(alloc, work, held, b.get()),
        _ => Err(refuse_plain(Row::NotUpdate)),
    }
}

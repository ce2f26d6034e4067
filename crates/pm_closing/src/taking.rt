//! Proofs of what a part of the star gives.

ghost use Rattle.std.specs.Prelude.{◌≡◌, ◌+◌, ◌<◌, [], ◌∷◌, IfOk, length};
ghost use Rattle.pm_logic.specs.declared.formula.Formula.{Formula as Tree};
ghost use Rattle.pm_logic.specs.declared.formula.Formula.TheViews as view;
ghost use Rattle.pm_proof.specs.Trees.{entail, conclusion};
ghost use Rattle.pm_proof.specs.Known.{Proves, Every};
ghost use Rattle.pm_schemes.specs.Sketches.{deepest};
ghost use Rattle.pm_star.specs.Stars.{work_parts};
ghost use Rattle.pm_table.specs.Limits.{all_nodes, work_formulas};
ghost use Rattle.pm_table.specs.Outcomes.{gives};
ghost use Rattle.pm_action.specs.Acting.{Answers, IsActed, IsHanded};
ghost use Rattle.pm_closing.specs.Ways.{IsFirst, GivesPart, IsFound};

use crate::stepping::from_part;
use crate::way::Found;
use pm_action::finish_closed;
use pm_goal::{StepFault, Work};
use pm_logic::{Formula, Memory};
use pm_proof::{Parts, Proof};
use pm_schemes::{Letters, Pattern, Scheme, derive, gap, sep, step};
use pm_star::{bring_front_held, compose};
use pm_table::Place;
use std::alloc::Global;

const X: Pattern = Pattern::Letter(0);

const A: Pattern = Pattern::Letter(1);

const Y: Pattern = Pattern::Letter(2);

/// From X ⊢ A ∗ Y: X ⊢ A.
static FIRST: Scheme = step!(
    Trans, X => A;
    gap!(X => sep!(A, Y));
    step!(SepWeaken, sep!(A, Y) => A)
);

/// From `X ⊢ A ∗ Y`, which is its hole: `X ⊢ A`.
#[tactic(auto, unfolding(pm_schemes::specs::Tests::passes, pm_schemes::specs::Tests::fits_row))]
fn first_step(
    alloc: Global,
    vars: u32,
    x: &Formula,
    a: &Formula,
    y: &Formula,
) -> Result<Proof, Memory>
    ensures { IfOk result (λ p. Proves Every (entail vars x.now a.now) (entail vars x.now (view.Sep a.now y.now) ∷ []) 2 (deepest (x.now ∷ a.now ∷ y.now ∷ []) [] + 1) vars p) }
{
    let letters = Letters {
        formulas: &[x, a, y],
        pures: &[],
    };
    let proof = derive(alloc, vars, &FIRST, letters)?;
    Ok(proof)
}

/// From a proof of `X ⊢ A ∗ Y`: `X ⊢ A`.
fn first(alloc: Global, by: Proof) -> Result<Proof, Memory>
    requires { (x : Tree) × (a : Tree) × (y : Tree) × (conclusion by ≡ entail (conclusion by).vars x (view.Sep a y)) }
    ensures { IfOk result (IsFirst by) }
{
    let e = by.conclusion();
    match &e.right {
        Formula::Sep(a, y) => {
            let step = first_step(alloc, e.vars, &e.left, a.get(), y.get())?;
            Ok(step.fill(0, by))
        }
        _ => unreachable!(),
    }
}

/// From the star to the part at the place.
pub fn part(alloc: Global, work: &Work, place: u32) -> Result<Proof, Memory>
    requires handed { IsHanded work.now }
    requires within { place < length (work_parts work.now) }
    ensures { IfOk result (GivesPart work.now place) }
{
    let front = bring_front_held(alloc, work, place)?;
    let proof = first(alloc, front)?;
    Ok(proof)
}

/// From the star to the conclusion, which the part gives.
pub fn by_found(alloc: Global, work: &Work, found: Found) -> Result<Proof, Memory>
    requires handed { IsHanded work.now }
    requires found { IsFound work.now.goal found }
    ensures { IfOk result (IsActed (all_nodes (work_formulas work.now)) work.now []) }
{
    let goal = &work.goal;
    let part = part(alloc, work, found.place)?;
    let step = from_part(alloc, goal.vars.len() as u32, found.way, &goal.concl)?;
    let proof = compose(alloc, part, step)?;
    Ok(proof)
}

/// No work is left, since the part gives the conclusion.
pub fn close_by(alloc: Global, work: &Work, found: Found) -> Result<Parts<Place>, StepFault>
    requires handed { IsHanded work.now }
    requires found { IsFound work.now.goal found }
    ensures { Answers (all_nodes (work_formulas work.now)) work.now (gives []) result }
{
    let proof = by_found(alloc, work, found)?;
    finish_closed(alloc, proof)
}

//! A proof about a star, behind one part more.

ghost use Rattle.std.specs.Prelude.{◌≡◌, ◌+◌, [], ◌∷◌, IfOk};
ghost use Rattle.pm_logic.specs.declared.formula.Formula.TheViews as view;
ghost use Rattle.pm_proof.specs.Trees.{entail, conclusion};
ghost use Rattle.pm_proof.specs.Known.{Proves, Every};
ghost use Rattle.pm_schemes.specs.Sketches.{deepest};
ghost use Rattle.pm_star.specs.Levels.{IsShared, IsHalved, IsLevel, IsTurned, Around, left_side, right_side};
ghost use Rattle.pm_star.specs.declared.side.Side.TheVariants as sides;

use crate::rules;
use crate::side::Side;
use pm_logic::{Formula, Memory, copy, sep};
use pm_proof::Proof;
use std::alloc::Global;

/// A proof of a star of two formulas, and the two.
#[derive(Drop)]
pub struct Halves {
    pub proof: Proof,
    pub left: Formula,
    pub right: Formula,
}

/// The same entailment behind `x` on both sides.
pub fn behind(alloc: Global, vars: u32, x: &Formula, inner: Proof) -> Result<Proof, Memory>
    requires { (conclusion inner).vars ≡ vars }
    ensures { IfOk result (λ p. Around vars 2 inner (view.Sep x.now (left_side inner)) (view.Sep x.now (right_side inner)) p) }
{
    let e = inner.conclusion();
    let step = rules::behind(alloc, vars, x, &e.left, &e.right)?;
    Ok(step.fill(0, inner))
}

/// `x ∗ rest ⊢ x ∗ (x ∗ rest)`
pub fn again(alloc: Global, vars: u32, x: &Formula, rest: &Formula) -> Result<Proof, Memory>
    requires { IsShared x.now }
    ensures { IfOk result (λ p. Proves Every (entail vars (view.Sep x.now rest.now) (view.Sep x.now (view.Sep x.now rest.now))) [] 11 (deepest (x.now ∷ rest.now ∷ []) [] + 3) vars p) }
{
    match x {
        Formula::Pure(fact) => {
            let proof = rules::fact_again(alloc, vars, fact, rest)?;
            Ok(proof)
        }
        Formula::Pers(a) => {
            let proof = rules::box_again(alloc, vars, a.get(), rest)?;
            Ok(proof)
        }
        _ => unreachable!(),
    }
}

/// The two halves for each other.
pub fn turned(alloc: Global, vars: u32, halves: Halves) -> Result<Halves, Memory>
    requires { IsHalved vars halves }
    ensures { IfOk result (λ h. IsTurned vars halves h) }
{
    let Halves { proof, left, right } = halves;
    let step = rules::turned(alloc, vars, &proof.conclusion().left, &left, &right)?;
    let proof = step.fill(0, proof);
    Ok(Halves {
        proof,
        left: right,
        right: left,
    })
}

fn to_left(alloc: Global, vars: u32, x: &Formula, halves: Halves) -> Result<Halves, Memory>
    requires { IsHalved vars halves }
    ensures { IfOk result (λ h. IsLevel vars x.now sides.Left halves h) }
{
    let Halves { proof, left, right } = halves;
    let step = rules::to_left(alloc, vars, x, &proof.conclusion().left, &left, &right)?;
    let left = sep(alloc, copy(alloc, x)?, left)?;
    let proof = step.fill(0, proof);
    Ok(Halves { proof, left, right })
}

fn to_right(alloc: Global, vars: u32, x: &Formula, halves: Halves) -> Result<Halves, Memory>
    requires { IsHalved vars halves }
    ensures { IfOk result (λ h. IsLevel vars x.now sides.Right halves h) }
{
    let Halves { proof, left, right } = halves;
    let step = rules::to_right(alloc, vars, x, &proof.conclusion().left, &left, &right)?;
    let right = sep(alloc, copy(alloc, x)?, right)?;
    let proof = step.fill(0, proof);
    Ok(Halves { proof, left, right })
}

fn to_both(alloc: Global, vars: u32, x: &Formula, halves: Halves) -> Result<Halves, Memory>
    requires halved { IsHalved vars halves }
    requires shared { IsShared x.now }
    ensures { IfOk result (λ h. IsLevel vars x.now sides.Both halves h) }
{
    let Halves { proof, left, right } = halves;
    let step = both_step(alloc, vars, x, &proof.conclusion().left, &left, &right)?;
    let left = sep(alloc, copy(alloc, x)?, left)?;
    let right = sep(alloc, copy(alloc, x)?, right)?;
    let proof = step.fill(0, proof);
    Ok(Halves { proof, left, right })
}

/// From `X ⊢ P ∗ Q`, which is its hole: `x ∗ X ⊢ (x ∗ P) ∗ (x ∗ Q)`.
fn both_step(
    alloc: Global,
    vars: u32,
    x: &Formula,
    rest: &Formula,
    p: &Formula,
    q: &Formula,
) -> Result<Proof, Memory>
    requires { IsShared x.now }
    ensures { IfOk result (λ t. Proves Every (entail vars (view.Sep x.now rest.now) (view.Sep (view.Sep x.now p.now) (view.Sep x.now q.now))) (entail vars rest.now (view.Sep p.now q.now) ∷ []) 26 (deepest (x.now ∷ rest.now ∷ p.now ∷ q.now ∷ []) [] + 3) vars t) }
{
    let doubled = again(alloc, vars, x, rest)?;
    let step = rules::to_both(alloc, vars, x, rest, p, q)?;
    Ok(step.fill(0, doubled))
}

/// The part `x` more, on its side.
pub fn level(
    alloc: Global,
    vars: u32,
    x: &Formula,
    side: Side,
    halves: Halves,
) -> Result<Halves, Memory>
    requires halved { IsHalved vars halves }
    requires shared { side ≡ sides.Both → IsShared x.now }
    ensures { IfOk result (λ h. IsLevel vars x.now side halves h) }
{
    match side {
        Side::Left => to_left(alloc, vars, x, halves),
        Side::Right => to_right(alloc, vars, x, halves),
        Side::Both => to_both(alloc, vars, x, halves),
    }
}

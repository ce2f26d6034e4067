//! A star of what may be used any number of times entails its own box.

ghost use Rattle.std.specs.Prelude.{◌≡◌, ℕ, ◌<◌, ◌+◌, ◌++◌, [], ◌∷◌, IfOk, length};
ghost use Rattle.pm_logic.specs.declared.formula.Formula.TheViews as view;
ghost use Rattle.pm_proof.specs.Trees.{entail};
ghost use Rattle.pm_proof.specs.Known.{Proves, Every};
ghost use Rattle.pm_schemes.specs.Sketches.{deepest};
ghost use Rattle.pm_star.specs.Stars.{star, part_at, Moves};
ghost use Rattle.pm_star.specs.Levels.{IsShared};
ghost use Rattle.pm_star.specs.Chains.{IsBoxed, IsBoxedMore, IsBoxedAll};

use crate::beside::Beside;
use crate::boxes::{both_boxed, box_boxed, fact_boxed, truth_boxed};
use crate::walks::star_of;
use pm_logic::{Formula, Memory, Pure, copy, sep};
use pm_proof::Proof;
use std::alloc::Global;

/// `x ⊢ □ x`
fn own_box(alloc: Global, vars: u32, x: &Formula) -> Result<Proof, Memory>
    requires { IsShared x.now }
    ensures { IfOk result (λ p. Proves Every (entail vars x.now (view.Pers x.now)) [] 1 (deepest (x.now ∷ []) [] + 2) vars p) }
{
    match x {
        Formula::Pure(fact) => {
            let proof = fact_boxed(alloc, vars, fact)?;
            Ok(proof)
        }
        Formula::Pers(a) => {
            let proof = box_boxed(alloc, vars, a.get())?;
            Ok(proof)
        }
        _ => unreachable!(),
    }
}

/// From `X ⊢ □ Y`, which is its hole: `x ∗ X ⊢ □ (x ∗ Y)`.
fn box_step(
    alloc: Global,
    vars: u32,
    x: &Formula,
    rest: &Formula,
    y: &Formula,
) -> Result<Proof, Memory>
    requires { IsShared x.now }
    ensures { IfOk result (λ t. Proves Every (entail vars (view.Sep x.now rest.now) (view.Pers (view.Sep x.now y.now))) (entail vars rest.now (view.Pers y.now) ∷ []) 19 (deepest (x.now ∷ rest.now ∷ y.now ∷ []) [] + 3) vars t) }
{
    let own = own_box(alloc, vars, x)?;
    let step = both_boxed(alloc, vars, x, rest, y)?;
    Ok(step.fill(0, own))
}

/// The part `x` more, under the box too.
fn box_more(alloc: Global, vars: u32, x: &Formula, inner: Beside) -> Result<Beside, Memory>
    requires boxed { IsBoxed vars inner }
    requires shared { IsShared x.now }
    ensures { IfOk result (λ h. IsBoxedMore vars x.now inner h) }
{
    let Beside { proof, part } = inner;
    let step = box_step(alloc, vars, x, &proof.conclusion().left, &part)?;
    let part = sep(alloc, copy(alloc, x)?, part)?;
    let proof = step.fill(0, proof);
    Ok(Beside { proof, part })
}

/// All the parts more, under the box too.
fn box_all(alloc: Global, vars: u32, parts: &[Formula], inner: Beside) -> Result<Beside, Memory>
    requires boxed { IsBoxed vars inner }
    requires shared { (i : ℕ) → i < length parts.now → IsShared (part_at parts.now i) }
    ensures { IfOk result (λ h. IsBoxedAll vars parts.now 0 inner h) }
{
    let mut made = inner;
    let mut i = parts.len();
    while i > 0 {
        i -= 1;
        made = box_more(alloc, vars, &parts[i], made)?;
    }
    Ok(made)
}

/// From the star of all the parts to the star of the first ones under a box, which may be used any number of times.
pub fn to_box(
    alloc: Global,
    vars: u32,
    parts: &[Formula],
    lost: &[Formula],
) -> Result<Proof, Memory>
    requires { (i : ℕ) → i < length parts.now → IsShared (part_at parts.now i) }
    ensures { IfOk result (λ p. Moves vars (length parts.now) (star (parts.now ++ lost.now)) (view.Pers (star parts.now)) p) }
{
    let rest = star_of(alloc, lost)?;
    let proof = truth_boxed(alloc, vars, &rest)?;
    let start = Beside {
        proof,
        part: Formula::Pure(Pure::True),
    };
    let made = box_all(alloc, vars, parts, start)?;
    let Beside { proof, part: _ } = made;
    Ok(proof)
}

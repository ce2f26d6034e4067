//! Derived rules of many uses.

ghost use Rattle.std.specs.Prelude.{◌≡◌, ◌+◌, [], ◌∷◌, IfOk};
ghost use Rattle.pm_logic.specs.declared.formula.Formula.TheViews as view;
ghost use Rattle.pm_proof.specs.Trees.{entail};
ghost use Rattle.pm_proof.specs.Known.{Proves, Every};
ghost use Rattle.pm_schemes.specs.Sketches.{deepest};

use crate::instances::Letters;
use crate::pattern::Pattern;
use crate::planting::derive;
use crate::scheme::Scheme;
use crate::{gap, sep, step};
use pm_logic::{Formula, Memory};
use pm_proof::Proof;
use std::alloc::Global;

const A: Pattern = Pattern::Letter(0);

const B: Pattern = Pattern::Letter(1);

const C: Pattern = Pattern::Letter(2);

/// From A ⊢ B and B ⊢ C: A ⊢ C.
static CHAIN: Scheme = step!(Trans, A => C; gap!(A => B); gap!(B => C));

/// A ∗ (B ∗ C) ⊢ B ∗ (A ∗ C)
static EXCHANGE: Scheme = step!(
    Trans, sep!(A, sep!(B, C)) => sep!(B, sep!(A, C));
    step!(SepAssocL, sep!(A, sep!(B, C)) => sep!(sep!(A, B), C));
    step!(
        Trans, sep!(sep!(A, B), C) => sep!(B, sep!(A, C));
        step!(
            SepMono, sep!(sep!(A, B), C) => sep!(sep!(B, A), C);
            step!(SepComm, sep!(A, B) => sep!(B, A));
            step!(Refl, C => C)
        );
        step!(SepAssocR, sep!(sep!(B, A), C) => sep!(B, sep!(A, C)))
    )
);

/// From `A ⊢ B` and `B ⊢ C`, which are its holes: `A ⊢ C`.
#[tactic(auto, unfolding(crate::specs::Tests::passes, crate::specs::Tests::fits_row))]
pub fn chain(
    alloc: Global,
    vars: u32,
    a: &Formula,
    b: &Formula,
    c: &Formula,
) -> Result<Proof, Memory>
    ensures { IfOk result (λ p. Proves Every (entail vars a.now c.now) (entail vars a.now b.now ∷ entail vars b.now c.now ∷ []) 1 (deepest (a.now ∷ b.now ∷ c.now ∷ []) []) vars p) }
{
    let letters = Letters {
        formulas: &[a, b, c],
        pures: &[],
    };
    let proof = derive(alloc, vars, &CHAIN, letters)?;
    Ok(proof)
}

/// `A ∗ (B ∗ C) ⊢ B ∗ (A ∗ C)`
#[tactic(auto, unfolding(crate::specs::Tests::passes, crate::specs::Tests::fits_row))]
pub fn exchange(
    alloc: Global,
    vars: u32,
    a: &Formula,
    b: &Formula,
    c: &Formula,
) -> Result<Proof, Memory>
    ensures { IfOk result (λ p. Proves Every (entail vars (view.Sep a.now (view.Sep b.now c.now)) (view.Sep b.now (view.Sep a.now c.now))) [] 7 (deepest (a.now ∷ b.now ∷ c.now ∷ []) [] + 2) vars p) }
{
    let letters = Letters {
        formulas: &[a, b, c],
        pures: &[],
    };
    let proof = derive(alloc, vars, &EXCHANGE, letters)?;
    Ok(proof)
}

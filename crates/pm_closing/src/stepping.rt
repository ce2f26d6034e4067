//! Proofs of the conclusion from a part of the star.

ghost use Rattle.std.specs.Prelude.{◌+◌, [], ◌∷◌, IfOk};
ghost use Rattle.pm_logic.specs.declared.formula.Formula.TheVariants.{Pure as Assert};
ghost use Rattle.pm_logic.specs.declared.formula.Formula.TheViews as view;
ghost use Rattle.pm_logic.specs.declared.formula.Pure.TheVariants as pure;
ghost use Rattle.pm_proof.specs.Trees.{entail};
ghost use Rattle.pm_proof.specs.Known.{Proves, Every};
ghost use Rattle.pm_schemes.specs.Sketches.{deepest};
ghost use Rattle.pm_closing.specs.Ways.{GivesConclusion};

use crate::way::Way;
use pm_logic::{Formula, Memory};
use pm_proof::Proof;
use pm_schemes::{Letters, Pattern, PurePattern, Scheme, derive, pers, step};
use std::alloc::Global;

const C: Pattern = Pattern::Letter(0);

const NEVER: Pattern = Pattern::Pure(&PurePattern::False);

/// C ⊢ C
static SAME: Scheme = step!(Refl, C => C);

/// □ C ⊢ C
static BOXED: Scheme = step!(PersElim, pers!(C) => C);

/// ⌜False⌝ ⊢ C
static FALSEHOOD: Scheme = step!(False, NEVER => C);

/// □ ⌜False⌝ ⊢ C
static BOXED_FALSEHOOD: Scheme = step!(
    Trans, pers!(NEVER) => C;
    step!(PersElim, pers!(NEVER) => NEVER);
    step!(False, NEVER => C)
);

/// `C ⊢ C`
#[tactic(auto, unfolding(pm_schemes::specs::Tests::passes, pm_schemes::specs::Tests::fits_row))]
fn same(alloc: Global, vars: u32, c: &Formula) -> Result<Proof, Memory>
    ensures { IfOk result (λ p. Proves Every (entail vars c.now c.now) [] 1 (deepest (c.now ∷ []) []) vars p) }
{
    let letters = Letters {
        formulas: &[c],
        pures: &[],
    };
    let proof = derive(alloc, vars, &SAME, letters)?;
    Ok(proof)
}

/// `□ C ⊢ C`
#[tactic(auto, unfolding(pm_schemes::specs::Tests::passes, pm_schemes::specs::Tests::fits_row))]
fn boxed(alloc: Global, vars: u32, c: &Formula) -> Result<Proof, Memory>
    ensures { IfOk result (λ p. Proves Every (entail vars (view.Pers c.now) c.now) [] 1 (deepest (c.now ∷ []) [] + 1) vars p) }
{
    let letters = Letters {
        formulas: &[c],
        pures: &[],
    };
    let proof = derive(alloc, vars, &BOXED, letters)?;
    Ok(proof)
}

/// `⌜False⌝ ⊢ C`
#[tactic(auto, unfolding(pm_schemes::specs::Tests::passes, pm_schemes::specs::Tests::fits_row))]
fn falsehood(alloc: Global, vars: u32, c: &Formula) -> Result<Proof, Memory>
    ensures { IfOk result (λ p. Proves Every (entail vars (Assert pure.False) c.now) [] 1 (deepest (c.now ∷ []) [] + 2) vars p) }
{
    let letters = Letters {
        formulas: &[c],
        pures: &[],
    };
    let proof = derive(alloc, vars, &FALSEHOOD, letters)?;
    Ok(proof)
}

/// `□ ⌜False⌝ ⊢ C`
#[tactic(auto, unfolding(pm_schemes::specs::Tests::passes, pm_schemes::specs::Tests::fits_row))]
fn boxed_falsehood(alloc: Global, vars: u32, c: &Formula) -> Result<Proof, Memory>
    ensures { IfOk result (λ p. Proves Every (entail vars (view.Pers (Assert pure.False)) c.now) [] 3 (deepest (c.now ∷ []) [] + 3) vars p) }
{
    let letters = Letters {
        formulas: &[c],
        pures: &[],
    };
    let proof = derive(alloc, vars, &BOXED_FALSEHOOD, letters)?;
    Ok(proof)
}

/// From the part by which the conclusion is given in the way: the conclusion.
pub fn from_part(alloc: Global, vars: u32, way: Way, c: &Formula) -> Result<Proof, Memory>
    ensures { IfOk result (GivesConclusion vars way c.now) }
{
    match way {
        Way::Same => same(alloc, vars, c),
        Way::Boxed => boxed(alloc, vars, c),
        Way::Falsehood => falsehood(alloc, vars, c),
        Way::BoxedFalsehood => boxed_falsehood(alloc, vars, c),
    }
}

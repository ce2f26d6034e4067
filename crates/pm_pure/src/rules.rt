//! Derived rules of the actions.

ghost use Rattle.std.specs.Prelude.{◌≡◌, ◌+◌, [], ◌∷◌, IfOk};
ghost use Rattle.pm_logic.specs.declared.formula.Formula.TheVariants.{Pure as Assert};
ghost use Rattle.pm_logic.specs.declared.formula.Formula.TheViews as view;
ghost use Rattle.pm_logic.specs.declared.formula.Pure.TheVariants as pure;
ghost use Rattle.pm_logic.specs.declared.formula.Pure.TheViews as pure_view;
ghost use Rattle.pm_proof.specs.Trees.{entail};
ghost use Rattle.pm_proof.specs.Known.{Proves, Every};
ghost use Rattle.pm_schemes.specs.Sketches.{deepest};

use pm_logic::{Formula, Memory, Pure};
use pm_proof::Proof;
use pm_schemes::{Letters, Pattern, PurePattern, Scheme, derive, gap, or, sep, step, wand};
use std::alloc::Global;

const A: Pattern = Pattern::Letter(0);

const B: Pattern = Pattern::Letter(1);

const C: Pattern = Pattern::Letter(2);

const TRUTH: Pattern = Pattern::Pure(&PurePattern::True);

const FACT: Pattern = Pattern::Pure(&PurePattern::Letter(0));

const DENIAL: Pattern = Pattern::Pure(&PurePattern::Not(&PurePattern::Letter(0)));

/// A ⊢ True
static NOTHING: Scheme = step!(True, A => TRUTH);

/// From B ⊢ C: A ∗ B ⊢ A ∗ C.
static BEHIND: Scheme = step!(SepMono, sep!(A, B) => sep!(A, C); step!(Refl, A => A); gap!(B => C));

/// A ⊢ (⌜φ⌝ ∨ ⌜¬φ⌝) ∗ A
const EITHER_HOLDS: Scheme = step!(
    Trans, A => sep!(or!(FACT, DENIAL), A);
    step!(SepUnit, A => sep!(TRUTH, A));
    step!(
        SepMono, sep!(TRUTH, A) => sep!(or!(FACT, DENIAL), A);
        step!(Em, TRUTH => or!(FACT, DENIAL));
        step!(Refl, A => A)
    )
);

/// From ⌜φ⌝ ∗ A ⊢ B and ⌜¬φ⌝ ∗ A ⊢ B: A ⊢ B.
static CASES: Scheme = step!(
    Trans, A => B;
    EITHER_HOLDS;
    step!(
        WandE, sep!(or!(FACT, DENIAL), A) => B;
        step!(
            OrE, or!(FACT, DENIAL) => wand!(A, B);
            step!(WandI, FACT => wand!(A, B); gap!(sep!(FACT, A) => B));
            step!(WandI, DENIAL => wand!(A, B); gap!(sep!(DENIAL, A) => B))
        )
    )
);

/// `A ⊢ ⌜True⌝`
#[tactic(auto, unfolding(pm_schemes::specs::Tests::passes, pm_schemes::specs::Tests::fits_row))]
pub fn nothing(alloc: Global, vars: u32, a: &Formula) -> Result<Proof, Memory>
    ensures { IfOk result (λ p. Proves Every (entail vars a.now (Assert pure.True)) [] 1 (deepest (a.now ∷ []) [] + 2) vars p) }
{
    let letters = Letters {
        formulas: &[a],
        pures: &[],
    };
    let proof = derive(alloc, vars, &NOTHING, letters)?;
    Ok(proof)
}

/// From `B ⊢ C`, which is its hole: `A ∗ B ⊢ A ∗ C`.
#[tactic(auto, unfolding(pm_schemes::specs::Tests::passes, pm_schemes::specs::Tests::fits_row))]
pub fn behind(
    alloc: Global,
    vars: u32,
    a: &Formula,
    b: &Formula,
    c: &Formula,
) -> Result<Proof, Memory>
    ensures { IfOk result (λ p. Proves Every (entail vars (view.Sep a.now b.now) (view.Sep a.now c.now)) (entail vars b.now c.now ∷ []) 2 (deepest (a.now ∷ b.now ∷ c.now ∷ []) [] + 1) vars p) }
{
    let letters = Letters {
        formulas: &[a, b, c],
        pures: &[],
    };
    let proof = derive(alloc, vars, &BEHIND, letters)?;
    Ok(proof)
}

/// From `⌜φ⌝ ∗ A ⊢ B` and `⌜¬φ⌝ ∗ A ⊢ B`, which are its holes: `A ⊢ B`.
#[tactic(auto, unfolding(pm_schemes::specs::Tests::passes, pm_schemes::specs::Tests::fits_row))]
pub fn by_cases(
    alloc: Global,
    vars: u32,
    a: &Formula,
    b: &Formula,
    p: &Pure,
) -> Result<Proof, Memory>
    ensures { IfOk result (λ t. Proves Every (entail vars a.now b.now) (entail vars (view.Sep (Assert p.now) a.now) b.now ∷ entail vars (view.Sep (Assert (pure_view.Not p.now)) a.now) b.now ∷ []) 10 (deepest (a.now ∷ b.now ∷ []) (p.now ∷ []) + 5) vars t) }
{
    let letters = Letters {
        formulas: &[a, b],
        pures: &[p],
    };
    let proof = derive(alloc, vars, &CASES, letters)?;
    Ok(proof)
}

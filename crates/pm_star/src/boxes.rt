//! Derived rules of boxes.

ghost use Rattle.std.specs.Prelude.{◌≡◌, ◌+◌, [], ◌∷◌, IfOk};
ghost use Rattle.pm_logic.specs.declared.formula.Pure.{Pure};
ghost use Rattle.pm_logic.specs.declared.formula.Formula.TheViews as view;
ghost use Rattle.pm_logic.specs.declared.formula.Formula.TheVariants.{Pure as Assert};
ghost use Rattle.pm_logic.specs.declared.formula.Pure.TheVariants as pure;
ghost use Rattle.pm_proof.specs.Trees.{entail};
ghost use Rattle.pm_proof.specs.Known.{Proves, Every};
ghost use Rattle.pm_schemes.specs.Sketches.{deepest};

use pm_logic::{Formula, Memory, Pure};
use pm_proof::Proof;
use pm_schemes::{Letters, Pattern, PurePattern, Scheme, and, derive, gap, pers, sep, step};
use std::alloc::Global;

const A: Pattern = Pattern::Letter(0);

const X: Pattern = Pattern::Letter(1);

const Y: Pattern = Pattern::Letter(2);

const FACT: Pattern = Pattern::Pure(&PurePattern::Letter(0));

const TRUTH: Pattern = Pattern::Pure(&PurePattern::True);

/// □ A ⊢ □ □ A
static BOX_BOXED: Scheme = step!(PersIdem, pers!(A) => pers!(pers!(A)));

/// ⌜φ⌝ ⊢ □ ⌜φ⌝
static FACT_BOXED: Scheme = step!(PersPure, FACT => pers!(FACT));

/// A ⊢ □ True
static TRUTH_BOXED: Scheme = step!(
    Trans, A => pers!(TRUTH);
    step!(True, A => TRUTH);
    step!(PersPure, TRUTH => pers!(TRUTH))
);

/// From A ⊢ □ A and X ⊢ □ Y: A ∗ X ⊢ □ □ A ∧ □ Y.
const EACH_BOXED: Scheme = step!(
    AndI, sep!(A, X) => and!(pers!(pers!(A)), pers!(Y));
    step!(
        Trans, sep!(A, X) => pers!(pers!(A));
        step!(SepWeaken, sep!(A, X) => A);
        step!(
            Trans, A => pers!(pers!(A));
            gap!(A => pers!(A));
            step!(PersIdem, pers!(A) => pers!(pers!(A)))
        )
    );
    step!(
        Trans, sep!(A, X) => pers!(Y);
        step!(SepComm, sep!(A, X) => sep!(X, A));
        step!(
            Trans, sep!(X, A) => pers!(Y);
            step!(SepWeaken, sep!(X, A) => X);
            gap!(X => pers!(Y))
        )
    )
);

/// □ (□ A ∧ Y) ⊢ □ (A ∗ Y)
const WITHIN_BOX: Scheme = step!(
    PersMono, pers!(and!(pers!(A), Y)) => pers!(sep!(A, Y));
    step!(
        Trans, and!(pers!(A), Y) => sep!(A, Y);
        step!(PersDup, and!(pers!(A), Y) => sep!(pers!(A), Y));
        step!(
            SepMono, sep!(pers!(A), Y) => sep!(A, Y);
            step!(PersElim, pers!(A) => A);
            step!(Refl, Y => Y)
        )
    )
);

/// From A ⊢ □ A and X ⊢ □ Y: A ∗ X ⊢ □ (A ∗ Y).
static BOTH_BOXED: Scheme = step!(
    Trans, sep!(A, X) => pers!(sep!(A, Y));
    EACH_BOXED;
    step!(
        Trans, and!(pers!(pers!(A)), pers!(Y)) => pers!(sep!(A, Y));
        step!(PersAnd, and!(pers!(pers!(A)), pers!(Y)) => pers!(and!(pers!(A), Y)));
        WITHIN_BOX
    )
);

/// `□ A ⊢ □ □ A`
#[tactic(auto, unfolding(pm_schemes::specs::Tests::passes, pm_schemes::specs::Tests::fits_row))]
pub fn box_boxed(alloc: Global, vars: u32, a: &Formula) -> Result<Proof, Memory>
    ensures { IfOk result (λ p. Proves Every (entail vars (view.Pers a.now) (view.Pers (view.Pers a.now))) [] 1 (deepest (a.now ∷ []) [] + 2) vars p) }
{
    let letters = Letters {
        formulas: &[a],
        pures: &[],
    };
    let proof = derive(alloc, vars, &BOX_BOXED, letters)?;
    Ok(proof)
}

/// `⌜φ⌝ ⊢ □ ⌜φ⌝`
#[tactic(auto, unfolding(pm_schemes::specs::Tests::passes, pm_schemes::specs::Tests::fits_row))]
pub fn fact_boxed(alloc: Global, vars: u32, fact: &Pure) -> Result<Proof, Memory>
    ensures { IfOk result (λ p. Proves Every (entail vars (Assert fact.now) (view.Pers (Assert fact.now))) [] 1 (deepest [] (fact.now ∷ []) + 2) vars p) }
{
    let letters = Letters {
        formulas: &[],
        pures: &[fact],
    };
    let proof = derive(alloc, vars, &FACT_BOXED, letters)?;
    Ok(proof)
}

/// `A ⊢ □ True`
#[tactic(auto, unfolding(pm_schemes::specs::Tests::passes, pm_schemes::specs::Tests::fits_row))]
pub fn truth_boxed(alloc: Global, vars: u32, a: &Formula) -> Result<Proof, Memory>
    ensures { IfOk result (λ p. Proves Every (entail vars a.now (view.Pers (Assert pure.True))) [] 3 (deepest (a.now ∷ []) [] + 3) vars p) }
{
    let letters = Letters {
        formulas: &[a],
        pures: &[],
    };
    let proof = derive(alloc, vars, &TRUTH_BOXED, letters)?;
    Ok(proof)
}

/// From `A ⊢ □ A` and `X ⊢ □ Y`, which are its holes: `A ∗ X ⊢ □ (A ∗ Y)`.
#[tactic(auto, unfolding(pm_schemes::specs::Tests::passes, pm_schemes::specs::Tests::fits_row))]
pub fn both_boxed(
    alloc: Global,
    vars: u32,
    a: &Formula,
    x: &Formula,
    y: &Formula,
) -> Result<Proof, Memory>
    ensures { IfOk result (λ t. Proves Every (entail vars (view.Sep a.now x.now) (view.Pers (view.Sep a.now y.now))) (entail vars a.now (view.Pers a.now) ∷ entail vars x.now (view.Pers y.now) ∷ []) 18 (deepest (a.now ∷ x.now ∷ y.now ∷ []) [] + 3) vars t) }
{
    let letters = Letters {
        formulas: &[a, x, y],
        pures: &[],
    };
    let proof = derive(alloc, vars, &BOTH_BOXED, letters)?;
    Ok(proof)
}

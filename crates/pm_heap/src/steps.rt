//! Derived rules of these actions.

ghost use Rattle.std.specs.Prelude.{◌≡◌, ◌+◌, [], ◌∷◌, IfOk};
ghost use Rattle.pm_logic.specs.declared.formula.Formula.TheVariants.{Pure as Fact};
ghost use Rattle.pm_logic.specs.declared.formula.Formula.TheViews as view;
ghost use Rattle.pm_logic.specs.declared.formula.Pure.TheVariants as pure;
ghost use Rattle.pm_proof.specs.Trees.{entail};
ghost use Rattle.pm_proof.specs.Known.{Proves, Every};
ghost use Rattle.pm_schemes.specs.Sketches.{deepest};

use pm_logic::{Formula, Memory};
use pm_proof::Proof;
use pm_schemes::{Letters, Pattern, PurePattern, Scheme, derive, gap, sep, step, upd};
use std::alloc::Global;

const A: Pattern = Pattern::Letter(0);

const B: Pattern = Pattern::Letter(1);

const X: Pattern = Pattern::Letter(2);

const Q: Pattern = Pattern::Letter(3);

const FALSEHOOD: Pattern = Pattern::Pure(&PurePattern::False);

/// ⌜False⌝ ∗ A ⊢ B
static ABSURD_BESIDE: Scheme = step!(
    Trans, sep!(FALSEHOOD, A) => B;
    step!(SepWeaken, sep!(FALSEHOOD, A) => FALSEHOOD);
    step!(False, FALSEHOOD => B)
);

/// From A ⊢ |==> B: A ∗ X ⊢ |==> (X ∗ B).
const FRAMED: Scheme = step!(
    Trans, sep!(A, X) => upd!(sep!(X, B));
    step!(SepComm, sep!(A, X) => sep!(X, A));
    step!(
        Trans, sep!(X, A) => upd!(sep!(X, B));
        step!(
            SepMono, sep!(X, A) => sep!(X, upd!(B));
            step!(Refl, X => X);
            gap!(A => upd!(B))
        );
        step!(UpdFrame, sep!(X, upd!(B)) => upd!(sep!(X, B)))
    )
);

/// From B ∗ X ⊢ |==> Q: |==> (X ∗ B) ⊢ |==> Q.
const RUN: Scheme = step!(
    Trans, upd!(sep!(X, B)) => upd!(Q);
    step!(
        UpdMono, upd!(sep!(X, B)) => upd!(upd!(Q));
        step!(
            Trans, sep!(X, B) => upd!(Q);
            step!(SepComm, sep!(X, B) => sep!(B, X));
            gap!(sep!(B, X) => upd!(Q))
        )
    );
    step!(UpdTrans, upd!(upd!(Q)) => upd!(Q))
);

/// From A ⊢ |==> B and B ∗ X ⊢ |==> Q: A ∗ X ⊢ |==> Q.
static UPDATED_BESIDE: Scheme = step!(Trans, sep!(A, X) => upd!(Q); FRAMED; RUN);

/// `⌜False⌝ ∗ a ⊢ b`
#[tactic(auto, unfolding(pm_schemes::specs::Tests::passes, pm_schemes::specs::Tests::fits_row))]
pub fn absurd_beside(alloc: Global, vars: u32, a: &Formula, b: &Formula) -> Result<Proof, Memory>
    ensures { IfOk result (λ p. Proves Every (entail vars (view.Sep (Fact pure.False) a.now) b.now) [] 3 (deepest (a.now ∷ b.now ∷ []) [] + 3) vars p) }
{
    let letters = Letters {
        formulas: &[a, b],
        pures: &[],
    };
    let proof = derive(alloc, vars, &ABSURD_BESIDE, letters)?;
    Ok(proof)
}

/// From `a ⊢ |==> b` and `b ∗ x ⊢ |==> q`, which are its holes: `a ∗ x ⊢ |==> q`.
#[tactic(auto, unfolding(pm_schemes::specs::Tests::passes, pm_schemes::specs::Tests::fits_row))]
pub fn updated_beside(
    alloc: Global,
    vars: u32,
    a: &Formula,
    b: &Formula,
    x: &Formula,
    q: &Formula,
) -> Result<Proof, Memory>
    ensures { IfOk result (λ p. Proves Every (entail vars (view.Sep a.now x.now) (view.Upd q.now)) (entail vars a.now (view.Upd b.now) ∷ entail vars (view.Sep b.now x.now) (view.Upd q.now) ∷ []) 20 (deepest (a.now ∷ b.now ∷ x.now ∷ q.now ∷ []) [] + 3) vars p) }
{
    let letters = Letters {
        formulas: &[a, b, x, q],
        pures: &[],
    };
    let proof = derive(alloc, vars, &UPDATED_BESIDE, letters)?;
    Ok(proof)
}

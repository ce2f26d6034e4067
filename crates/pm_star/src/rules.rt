//! The derived rules of the moves.

ghost use Rattle.std.specs.Prelude.{◌≡◌, ◌+◌, [], ◌∷◌, IfOk};
ghost use Rattle.pm_logic.specs.declared.formula.Pure.{Pure};
ghost use Rattle.pm_logic.specs.declared.formula.Formula.TheViews as view;
ghost use Rattle.pm_logic.specs.declared.formula.Formula.TheVariants.{Pure as Assert};
ghost use Rattle.pm_logic.specs.declared.formula.Pure.TheVariants as pure;
ghost use Rattle.pm_proof.specs.Trees.{entail};
ghost use Rattle.pm_proof.specs.Known.{Proves, Every};
ghost use Rattle.pm_schemes.specs.Sketches.{deepest};

use pm_logic::{Formula, Memory, Pure};
use pm_proof::Proof;
use pm_schemes::{Letters, Pattern, PurePattern, Scheme, and, derive, gap, pers, sep, step};
use std::alloc::Global;

const A: Pattern = Pattern::Letter(0);

const X: Pattern = Pattern::Letter(1);

const P: Pattern = Pattern::Letter(2);

const Q: Pattern = Pattern::Letter(3);

const B: Pattern = Pattern::Letter(2);

const TRUTH: Pattern = Pattern::Pure(&PurePattern::True);

/// A ∗ X ⊢ A ∗ X
static SAME: Scheme = step!(Refl, sep!(A, X) => sep!(A, X));

/// A ∗ X ⊢ X
static DROPPED: Scheme = step!(
    Trans, sep!(A, X) => X;
    step!(SepComm, sep!(A, X) => sep!(X, A));
    step!(SepWeaken, sep!(X, A) => X)
);

/// From A ⊢ B: A ∗ X ⊢ B ∗ X.
static REPLACED: Scheme = step!(
    SepMono, sep!(A, X) => sep!(B, X);
    gap!(A => B);
    step!(Refl, X => X)
);

/// □ A ∗ X ⊢ □ A ∗ (□ A ∗ X)
static BOX_AGAIN: Scheme = step!(
    Trans, sep!(pers!(A), X) => sep!(pers!(A), sep!(pers!(A), X));
    step!(
        AndI, sep!(pers!(A), X) => and!(pers!(A), sep!(pers!(A), X));
        step!(SepWeaken, sep!(pers!(A), X) => pers!(A));
        step!(Refl, sep!(pers!(A), X) => sep!(pers!(A), X))
    );
    step!(PersDup, and!(pers!(A), sep!(pers!(A), X)) => sep!(pers!(A), sep!(pers!(A), X)))
);

/// The pure formula.
const FACT: Pattern = Pattern::Pure(&PurePattern::Letter(0));

/// What stands beside it.
const Y: Pattern = Pattern::Letter(0);

/// ⌜φ⌝ ∗ Y ⊢ □ ⌜φ⌝ ∗ (⌜φ⌝ ∗ Y)
const FACT_BOXED: Scheme = step!(
    Trans, sep!(FACT, Y) => sep!(pers!(FACT), sep!(FACT, Y));
    step!(
        AndI, sep!(FACT, Y) => and!(pers!(FACT), sep!(FACT, Y));
        step!(
            Trans, sep!(FACT, Y) => pers!(FACT);
            step!(SepWeaken, sep!(FACT, Y) => FACT);
            step!(PersPure, FACT => pers!(FACT))
        );
        step!(Refl, sep!(FACT, Y) => sep!(FACT, Y))
    );
    step!(PersDup, and!(pers!(FACT), sep!(FACT, Y)) => sep!(pers!(FACT), sep!(FACT, Y)))
);

/// ⌜φ⌝ ∗ Y ⊢ ⌜φ⌝ ∗ (⌜φ⌝ ∗ Y)
static FACT_AGAIN: Scheme = step!(
    Trans, sep!(FACT, Y) => sep!(FACT, sep!(FACT, Y));
    FACT_BOXED;
    step!(
        SepMono, sep!(pers!(FACT), sep!(FACT, Y)) => sep!(FACT, sep!(FACT, Y));
        step!(PersElim, pers!(FACT) => FACT);
        step!(Refl, sep!(FACT, Y) => sep!(FACT, Y))
    )
);

/// From X ⊢ P: A ∗ X ⊢ A ∗ P.
static BEHIND: Scheme = step!(
    SepMono, sep!(A, X) => sep!(A, P);
    step!(Refl, A => A);
    gap!(X => P)
);

/// True ⊢ True ∗ True
static NOTHING: Scheme = step!(SepUnit, TRUTH => sep!(TRUTH, TRUTH));

/// From X ⊢ P ∗ Q: A ∗ X ⊢ A ∗ (P ∗ Q).
const TO_FRONT: Scheme = step!(
    SepMono, sep!(A, X) => sep!(A, sep!(P, Q));
    step!(Refl, A => A);
    gap!(X => sep!(P, Q))
);

/// From X ⊢ P ∗ Q: A ∗ X ⊢ (A ∗ P) ∗ Q.
static TO_LEFT: Scheme = step!(
    Trans, sep!(A, X) => sep!(sep!(A, P), Q);
    TO_FRONT;
    step!(SepAssocL, sep!(A, sep!(P, Q)) => sep!(sep!(A, P), Q))
);

/// A ∗ (P ∗ Q) ⊢ P ∗ (A ∗ Q)
const EXCHANGE: Scheme = step!(
    Trans, sep!(A, sep!(P, Q)) => sep!(P, sep!(A, Q));
    step!(SepAssocL, sep!(A, sep!(P, Q)) => sep!(sep!(A, P), Q));
    step!(
        Trans, sep!(sep!(A, P), Q) => sep!(P, sep!(A, Q));
        step!(
            SepMono, sep!(sep!(A, P), Q) => sep!(sep!(P, A), Q);
            step!(SepComm, sep!(A, P) => sep!(P, A));
            step!(Refl, Q => Q)
        );
        step!(SepAssocR, sep!(sep!(P, A), Q) => sep!(P, sep!(A, Q)))
    )
);

/// From X ⊢ P ∗ Q: A ∗ X ⊢ P ∗ (A ∗ Q).
static TO_RIGHT: Scheme = step!(
    Trans, sep!(A, X) => sep!(P, sep!(A, Q));
    TO_FRONT;
    EXCHANGE
);

/// From A ∗ X ⊢ A ∗ (A ∗ X) and X ⊢ P ∗ Q: A ∗ X ⊢ (A ∗ P) ∗ (A ∗ Q).
static TO_BOTH: Scheme = step!(
    Trans, sep!(A, X) => sep!(sep!(A, P), sep!(A, Q));
    gap!(sep!(A, X) => sep!(A, sep!(A, X)));
    step!(
        Trans, sep!(A, sep!(A, X)) => sep!(sep!(A, P), sep!(A, Q));
        step!(
            SepMono, sep!(A, sep!(A, X)) => sep!(A, sep!(P, sep!(A, Q)));
            step!(Refl, A => A);
            step!(
                Trans, sep!(A, X) => sep!(P, sep!(A, Q));
                TO_FRONT;
                EXCHANGE
            )
        );
        step!(SepAssocL, sep!(A, sep!(P, sep!(A, Q))) => sep!(sep!(A, P), sep!(A, Q)))
    )
);

/// From A ⊢ X ∗ B: A ⊢ B ∗ X.
static TURNED: Scheme = step!(
    Trans, A => sep!(B, X);
    gap!(A => sep!(X, B));
    step!(SepComm, sep!(X, B) => sep!(B, X))
);

/// X ∗ A ⊢ A ∗ X
static CROSSED: Scheme = step!(SepComm, sep!(X, A) => sep!(A, X));

/// From X ∗ A ⊢ P: A ∗ X ⊢ P.
static OTHER_WAY: Scheme = step!(
    Trans, sep!(A, X) => P;
    step!(SepComm, sep!(A, X) => sep!(X, A));
    gap!(sep!(X, A) => P)
);

/// From X ∗ A ⊢ P: (Q ∗ X) ∗ A ⊢ Q ∗ P.
static PASSED: Scheme = step!(
    Trans, sep!(sep!(Q, X), A) => sep!(Q, P);
    step!(SepAssocR, sep!(sep!(Q, X), A) => sep!(Q, sep!(X, A)));
    step!(
        SepMono, sep!(Q, sep!(X, A)) => sep!(Q, P);
        step!(Refl, Q => Q);
        gap!(sep!(X, A) => P)
    )
);

/// From A ⊢ P ∗ Q: A ∗ X ⊢ P ∗ (Q ∗ X).
static UNPAIRED: Scheme = step!(
    Trans, sep!(A, X) => sep!(P, sep!(Q, X));
    step!(
        SepMono, sep!(A, X) => sep!(sep!(P, Q), X);
        gap!(A => sep!(P, Q));
        step!(Refl, X => X)
    );
    step!(SepAssocR, sep!(sep!(P, Q), X) => sep!(P, sep!(Q, X)))
);

/// From P ∗ Q ⊢ A: P ∗ (Q ∗ X) ⊢ A ∗ X.
static MERGED: Scheme = step!(
    Trans, sep!(P, sep!(Q, X)) => sep!(A, X);
    step!(SepAssocL, sep!(P, sep!(Q, X)) => sep!(sep!(P, Q), X));
    step!(
        SepMono, sep!(sep!(P, Q), X) => sep!(A, X);
        gap!(sep!(P, Q) => A);
        step!(Refl, X => X)
    )
);

/// `A ∗ X ⊢ A ∗ X`
#[tactic(auto, unfolding(pm_schemes::specs::Tests::passes, pm_schemes::specs::Tests::fits_row))]
pub fn same(alloc: Global, vars: u32, a: &Formula, x: &Formula) -> Result<Proof, Memory>
    ensures { IfOk result (λ p. Proves Every (entail vars (view.Sep a.now x.now) (view.Sep a.now x.now)) [] 1 (deepest (a.now ∷ x.now ∷ []) [] + 1) vars p) }
{
    let letters = Letters {
        formulas: &[a, x],
        pures: &[],
    };
    let proof = derive(alloc, vars, &SAME, letters)?;
    Ok(proof)
}

/// `A ∗ X ⊢ X`
#[tactic(auto, unfolding(pm_schemes::specs::Tests::passes, pm_schemes::specs::Tests::fits_row))]
pub fn dropped(alloc: Global, vars: u32, a: &Formula, x: &Formula) -> Result<Proof, Memory>
    ensures { IfOk result (λ p. Proves Every (entail vars (view.Sep a.now x.now) x.now) [] 3 (deepest (a.now ∷ x.now ∷ []) [] + 1) vars p) }
{
    let letters = Letters {
        formulas: &[a, x],
        pures: &[],
    };
    let proof = derive(alloc, vars, &DROPPED, letters)?;
    Ok(proof)
}

/// From `A ⊢ B`, which is its hole: `A ∗ X ⊢ B ∗ X`.
#[tactic(auto, unfolding(pm_schemes::specs::Tests::passes, pm_schemes::specs::Tests::fits_row))]
pub fn replaced(
    alloc: Global,
    vars: u32,
    a: &Formula,
    x: &Formula,
    b: &Formula,
) -> Result<Proof, Memory>
    ensures { IfOk result (λ p. Proves Every (entail vars (view.Sep a.now x.now) (view.Sep b.now x.now)) (entail vars a.now b.now ∷ []) 2 (deepest (a.now ∷ x.now ∷ b.now ∷ []) [] + 1) vars p) }
{
    let letters = Letters {
        formulas: &[a, x, b],
        pures: &[],
    };
    let proof = derive(alloc, vars, &REPLACED, letters)?;
    Ok(proof)
}

/// `□ A ∗ X ⊢ □ A ∗ (□ A ∗ X)`
#[tactic(auto, unfolding(pm_schemes::specs::Tests::passes, pm_schemes::specs::Tests::fits_row))]
pub fn box_again(alloc: Global, vars: u32, a: &Formula, x: &Formula) -> Result<Proof, Memory>
    ensures { IfOk result (λ p. Proves Every (entail vars (view.Sep (view.Pers a.now) x.now) (view.Sep (view.Pers a.now) (view.Sep (view.Pers a.now) x.now))) [] 5 (deepest (a.now ∷ x.now ∷ []) [] + 3) vars p) }
{
    let letters = Letters {
        formulas: &[a, x],
        pures: &[],
    };
    let proof = derive(alloc, vars, &BOX_AGAIN, letters)?;
    Ok(proof)
}

/// `⌜φ⌝ ∗ X ⊢ ⌜φ⌝ ∗ (⌜φ⌝ ∗ X)`
#[tactic(auto, unfolding(pm_schemes::specs::Tests::passes, pm_schemes::specs::Tests::fits_row))]
pub fn fact_again(alloc: Global, vars: u32, fact: &Pure, x: &Formula) -> Result<Proof, Memory>
    ensures { IfOk result (λ p. Proves Every (entail vars (view.Sep (Assert fact.now) x.now) (view.Sep (Assert fact.now) (view.Sep (Assert fact.now) x.now))) [] 11 (deepest (x.now ∷ []) (fact.now ∷ []) + 3) vars p) }
{
    let letters = Letters {
        formulas: &[x],
        pures: &[fact],
    };
    let proof = derive(alloc, vars, &FACT_AGAIN, letters)?;
    Ok(proof)
}

/// From `X ⊢ P`, which is its hole: `A ∗ X ⊢ A ∗ P`.
#[tactic(auto, unfolding(pm_schemes::specs::Tests::passes, pm_schemes::specs::Tests::fits_row))]
pub fn behind(
    alloc: Global,
    vars: u32,
    a: &Formula,
    x: &Formula,
    p: &Formula,
) -> Result<Proof, Memory>
    ensures { IfOk result (λ t. Proves Every (entail vars (view.Sep a.now x.now) (view.Sep a.now p.now)) (entail vars x.now p.now ∷ []) 2 (deepest (a.now ∷ x.now ∷ p.now ∷ []) [] + 1) vars t) }
{
    let letters = Letters {
        formulas: &[a, x, p],
        pures: &[],
    };
    let proof = derive(alloc, vars, &BEHIND, letters)?;
    Ok(proof)
}

/// `True ⊢ True ∗ True`
#[tactic(auto, unfolding(pm_schemes::specs::Tests::passes, pm_schemes::specs::Tests::fits_row))]
pub fn nothing(alloc: Global, vars: u32) -> Result<Proof, Memory>
    ensures { IfOk result (λ p. Proves Every (entail vars (Assert pure.True) (view.Sep (Assert pure.True) (Assert pure.True))) [] 1 5 vars p) }
{
    let letters = Letters {
        formulas: &[],
        pures: &[],
    };
    let proof = derive(alloc, vars, &NOTHING, letters)?;
    Ok(proof)
}

/// From `X ⊢ P ∗ Q`, which is its hole: `A ∗ X ⊢ (A ∗ P) ∗ Q`.
#[tactic(auto, unfolding(pm_schemes::specs::Tests::passes, pm_schemes::specs::Tests::fits_row))]
pub fn to_left(
    alloc: Global,
    vars: u32,
    a: &Formula,
    x: &Formula,
    p: &Formula,
    q: &Formula,
) -> Result<Proof, Memory>
    ensures { IfOk result (λ t. Proves Every (entail vars (view.Sep a.now x.now) (view.Sep (view.Sep a.now p.now) q.now)) (entail vars x.now (view.Sep p.now q.now) ∷ []) 4 (deepest (a.now ∷ x.now ∷ p.now ∷ q.now ∷ []) [] + 2) vars t) }
{
    let letters = Letters {
        formulas: &[a, x, p, q],
        pures: &[],
    };
    let proof = derive(alloc, vars, &TO_LEFT, letters)?;
    Ok(proof)
}

/// From `X ⊢ P ∗ Q`, which is its hole: `A ∗ X ⊢ P ∗ (A ∗ Q)`.
#[tactic(auto, unfolding(pm_schemes::specs::Tests::passes, pm_schemes::specs::Tests::fits_row))]
pub fn to_right(
    alloc: Global,
    vars: u32,
    a: &Formula,
    x: &Formula,
    p: &Formula,
    q: &Formula,
) -> Result<Proof, Memory>
    ensures { IfOk result (λ t. Proves Every (entail vars (view.Sep a.now x.now) (view.Sep p.now (view.Sep a.now q.now))) (entail vars x.now (view.Sep p.now q.now) ∷ []) 10 (deepest (a.now ∷ x.now ∷ p.now ∷ q.now ∷ []) [] + 2) vars t) }
{
    let letters = Letters {
        formulas: &[a, x, p, q],
        pures: &[],
    };
    let proof = derive(alloc, vars, &TO_RIGHT, letters)?;
    Ok(proof)
}

/// From `A ∗ X ⊢ A ∗ (A ∗ X)` and `X ⊢ P ∗ Q`, which are its holes: `A ∗ X ⊢ (A ∗ P) ∗ (A ∗ Q)`.
#[tactic(auto, unfolding(pm_schemes::specs::Tests::passes, pm_schemes::specs::Tests::fits_row))]
pub fn to_both(
    alloc: Global,
    vars: u32,
    a: &Formula,
    x: &Formula,
    p: &Formula,
    q: &Formula,
) -> Result<Proof, Memory>
    ensures { IfOk result (λ t. Proves Every (entail vars (view.Sep a.now x.now) (view.Sep (view.Sep a.now p.now) (view.Sep a.now q.now))) (entail vars (view.Sep a.now x.now) (view.Sep a.now (view.Sep a.now x.now)) ∷ entail vars x.now (view.Sep p.now q.now) ∷ []) 15 (deepest (a.now ∷ x.now ∷ p.now ∷ q.now ∷ []) [] + 3) vars t) }
{
    let letters = Letters {
        formulas: &[a, x, p, q],
        pures: &[],
    };
    let proof = derive(alloc, vars, &TO_BOTH, letters)?;
    Ok(proof)
}

/// From `A ⊢ X ∗ B`, which is its hole: `A ⊢ B ∗ X`.
#[tactic(auto, unfolding(pm_schemes::specs::Tests::passes, pm_schemes::specs::Tests::fits_row))]
pub fn turned(
    alloc: Global,
    vars: u32,
    a: &Formula,
    x: &Formula,
    b: &Formula,
) -> Result<Proof, Memory>
    ensures { IfOk result (λ t. Proves Every (entail vars a.now (view.Sep b.now x.now)) (entail vars a.now (view.Sep x.now b.now) ∷ []) 2 (deepest (a.now ∷ x.now ∷ b.now ∷ []) [] + 1) vars t) }
{
    let letters = Letters {
        formulas: &[a, x, b],
        pures: &[],
    };
    let proof = derive(alloc, vars, &TURNED, letters)?;
    Ok(proof)
}

/// `X ∗ A ⊢ A ∗ X`
#[tactic(auto, unfolding(pm_schemes::specs::Tests::passes, pm_schemes::specs::Tests::fits_row))]
pub fn crossed(alloc: Global, vars: u32, a: &Formula, x: &Formula) -> Result<Proof, Memory>
    ensures { IfOk result (λ p. Proves Every (entail vars (view.Sep x.now a.now) (view.Sep a.now x.now)) [] 1 (deepest (a.now ∷ x.now ∷ []) [] + 1) vars p) }
{
    let letters = Letters {
        formulas: &[a, x],
        pures: &[],
    };
    let proof = derive(alloc, vars, &CROSSED, letters)?;
    Ok(proof)
}

/// From `X ∗ A ⊢ P`, which is its hole: `A ∗ X ⊢ P`.
#[tactic(auto, unfolding(pm_schemes::specs::Tests::passes, pm_schemes::specs::Tests::fits_row))]
pub fn other_way(
    alloc: Global,
    vars: u32,
    a: &Formula,
    x: &Formula,
    p: &Formula,
) -> Result<Proof, Memory>
    ensures { IfOk result (λ t. Proves Every (entail vars (view.Sep a.now x.now) p.now) (entail vars (view.Sep x.now a.now) p.now ∷ []) 2 (deepest (a.now ∷ x.now ∷ p.now ∷ []) [] + 1) vars t) }
{
    let letters = Letters {
        formulas: &[a, x, p],
        pures: &[],
    };
    let proof = derive(alloc, vars, &OTHER_WAY, letters)?;
    Ok(proof)
}

/// From `X ∗ A ⊢ P`, which is its hole: `(Q ∗ X) ∗ A ⊢ Q ∗ P`.
#[tactic(auto, unfolding(pm_schemes::specs::Tests::passes, pm_schemes::specs::Tests::fits_row))]
pub fn passed(
    alloc: Global,
    vars: u32,
    a: &Formula,
    x: &Formula,
    p: &Formula,
    q: &Formula,
) -> Result<Proof, Memory>
    ensures { IfOk result (λ t. Proves Every (entail vars (view.Sep (view.Sep q.now x.now) a.now) (view.Sep q.now p.now)) (entail vars (view.Sep x.now a.now) p.now ∷ []) 4 (deepest (a.now ∷ x.now ∷ p.now ∷ q.now ∷ []) [] + 2) vars t) }
{
    let letters = Letters {
        formulas: &[a, x, p, q],
        pures: &[],
    };
    let proof = derive(alloc, vars, &PASSED, letters)?;
    Ok(proof)
}

/// From `A ⊢ P ∗ Q`, which is its hole: `A ∗ X ⊢ P ∗ (Q ∗ X)`.
#[tactic(auto, unfolding(pm_schemes::specs::Tests::passes, pm_schemes::specs::Tests::fits_row))]
pub fn unpaired(
    alloc: Global,
    vars: u32,
    a: &Formula,
    x: &Formula,
    p: &Formula,
    q: &Formula,
) -> Result<Proof, Memory>
    ensures { IfOk result (λ t. Proves Every (entail vars (view.Sep a.now x.now) (view.Sep p.now (view.Sep q.now x.now))) (entail vars a.now (view.Sep p.now q.now) ∷ []) 4 (deepest (a.now ∷ x.now ∷ p.now ∷ q.now ∷ []) [] + 2) vars t) }
{
    let letters = Letters {
        formulas: &[a, x, p, q],
        pures: &[],
    };
    let proof = derive(alloc, vars, &UNPAIRED, letters)?;
    Ok(proof)
}

/// From `P ∗ Q ⊢ A`, which is its hole: `P ∗ (Q ∗ X) ⊢ A ∗ X`.
#[tactic(auto, unfolding(pm_schemes::specs::Tests::passes, pm_schemes::specs::Tests::fits_row))]
pub fn merged(
    alloc: Global,
    vars: u32,
    a: &Formula,
    x: &Formula,
    p: &Formula,
    q: &Formula,
) -> Result<Proof, Memory>
    ensures { IfOk result (λ t. Proves Every (entail vars (view.Sep p.now (view.Sep q.now x.now)) (view.Sep a.now x.now)) (entail vars (view.Sep p.now q.now) a.now ∷ []) 4 (deepest (a.now ∷ x.now ∷ p.now ∷ q.now ∷ []) [] + 2) vars t) }
{
    let letters = Letters {
        formulas: &[a, x, p, q],
        pures: &[],
    };
    let proof = derive(alloc, vars, &MERGED, letters)?;
    Ok(proof)
}

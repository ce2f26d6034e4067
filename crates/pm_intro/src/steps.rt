//! Derived rules of introductions.

ghost use Rattle.std.specs.Prelude.{◌≡◌, ◌+◌, [], ◌∷◌, IfOk};
ghost use Rattle.pm_logic.specs.declared.formula.Formula.TheViews as view;
ghost use Rattle.pm_proof.specs.Trees.{entail, conclusion};
ghost use Rattle.pm_proof.specs.Known.{Proves, Every};
ghost use Rattle.pm_schemes.specs.Sketches.{deepest};
ghost use Rattle.pm_intro.specs.Closing.{Closes, ClosesBoth};

use crate::closing::{close, close_both};
use pm_logic::{Formula, Memory};
use pm_proof::Proof;
use pm_schemes::{Letters, Pattern, Scheme, and, derive, ex, gap, imp, or, pers, sep, step, wand};
use std::alloc::Global;

const A: Pattern = Pattern::Letter(0);

const B: Pattern = Pattern::Letter(1);

const X: Pattern = Pattern::Letter(2);

const Y: Pattern = Pattern::Letter(3);

/// From A ⊢ B ∗ X: A ⊢ X ∗ B.
static SWAPPED: Scheme = step!(
    Trans, A => sep!(X, B);
    gap!(A => sep!(B, X));
    step!(SepComm, sep!(B, X) => sep!(X, B))
);

/// From `a ⊢ b ∗ x`: `a ⊢ x ∗ b`.
#[tactic(auto, unfolding(pm_schemes::specs::Tests::passes, pm_schemes::specs::Tests::fits_row))]
pub fn swapped(
    alloc: Global,
    vars: u32,
    a: &Formula,
    b: &Formula,
    x: &Formula,
    by: Proof,
) -> Result<Proof, Memory>
    requires { conclusion by ≡ entail vars a.now (view.Sep b.now x.now) }
    ensures { IfOk result (λ p. Closes by (entail vars a.now (view.Sep x.now b.now)) 2 (deepest (a.now ∷ b.now ∷ x.now ∷ []) [] + 1) vars p) }
{
    let letters = Letters {
        formulas: &[a, b, x],
        pures: &[],
    };
    let proof = close(alloc, vars, &SWAPPED, letters, by)?;
    Ok(proof)
}

/// From A ⊢ □ A: B ∧ A ⊢ A ∗ B.
static RIGHT_BOXED: Scheme = step!(
    Trans, and!(B, A) => sep!(A, B);
    step!(
        AndI, and!(B, A) => and!(pers!(A), B);
        step!(Trans, and!(B, A) => pers!(A); step!(AndR, and!(B, A) => A); gap!(A => pers!(A)));
        step!(AndL, and!(B, A) => B)
    );
    step!(
        Trans, and!(pers!(A), B) => sep!(A, B);
        step!(PersDup, and!(pers!(A), B) => sep!(pers!(A), B));
        step!(
            SepMono, sep!(pers!(A), B) => sep!(A, B);
            step!(PersElim, pers!(A) => A);
            step!(Refl, B => B)
        )
    )
);

/// From `a ⊢ □ a`: `b ∧ a ⊢ a ∗ b`.
#[tactic(auto, unfolding(pm_schemes::specs::Tests::passes, pm_schemes::specs::Tests::fits_row))]
pub fn right_boxed(
    alloc: Global,
    vars: u32,
    a: &Formula,
    b: &Formula,
    by: Proof,
) -> Result<Proof, Memory>
    requires { conclusion by ≡ entail vars a.now (view.Pers a.now) }
    ensures { IfOk result (λ p. Closes by (entail vars (view.And b.now a.now) (view.Sep a.now b.now)) 10 (deepest (a.now ∷ b.now ∷ []) [] + 2) vars p) }
{
    let letters = Letters {
        formulas: &[a, b],
        pures: &[],
    };
    let proof = close(alloc, vars, &RIGHT_BOXED, letters, by)?;
    Ok(proof)
}

/// From B ⊢ □ B: B ∧ A ⊢ A ∗ B.
static LEFT_BOXED: Scheme = step!(
    Trans, and!(B, A) => sep!(A, B);
    step!(
        AndI, and!(B, A) => and!(pers!(B), A);
        step!(Trans, and!(B, A) => pers!(B); step!(AndL, and!(B, A) => B); gap!(B => pers!(B)));
        step!(AndR, and!(B, A) => A)
    );
    step!(
        Trans, and!(pers!(B), A) => sep!(A, B);
        step!(PersDup, and!(pers!(B), A) => sep!(pers!(B), A));
        step!(
            Trans, sep!(pers!(B), A) => sep!(A, B);
            step!(SepComm, sep!(pers!(B), A) => sep!(A, pers!(B)));
            step!(
                SepMono, sep!(A, pers!(B)) => sep!(A, B);
                step!(Refl, A => A);
                step!(PersElim, pers!(B) => B)
            )
        )
    )
);

/// From `b ⊢ □ b`: `b ∧ a ⊢ a ∗ b`.
#[tactic(auto, unfolding(pm_schemes::specs::Tests::passes, pm_schemes::specs::Tests::fits_row))]
pub fn left_boxed(
    alloc: Global,
    vars: u32,
    a: &Formula,
    b: &Formula,
    by: Proof,
) -> Result<Proof, Memory>
    requires { conclusion by ≡ entail vars b.now (view.Pers b.now) }
    ensures { IfOk result (λ p. Closes by (entail vars (view.And b.now a.now) (view.Sep a.now b.now)) 12 (deepest (a.now ∷ b.now ∷ []) [] + 2) vars p) }
{
    let letters = Letters {
        formulas: &[a, b],
        pures: &[],
    };
    let proof = close(alloc, vars, &LEFT_BOXED, letters, by)?;
    Ok(proof)
}

/// □ A ⊢ □ □ A
static BOX_BOXED: Scheme = step!(PersIdem, pers!(A) => pers!(pers!(A)));

/// `□ a ⊢ □ □ a`
#[tactic(auto, unfolding(pm_schemes::specs::Tests::passes, pm_schemes::specs::Tests::fits_row))]
pub fn box_boxed(alloc: Global, vars: u32, a: &Formula) -> Result<Proof, Memory>
    ensures { IfOk result (λ p. Proves Every (entail vars (view.Pers a.now) (view.Pers (view.Pers a.now))) [] 1 (deepest (a.now ∷ []) [] + 2) vars p) }
{
    let letters = Letters {
        formulas: &[a],
        pures: &[],
    };
    let proof = derive(alloc, vars, &BOX_BOXED, letters)?;
    Ok(proof)
}

/// From A ∗ X ⊢ B: X ⊢ A -∗ B.
static WAND: Scheme = step!(
    WandI, X => wand!(A, B);
    step!(
        Trans, sep!(X, A) => B;
        step!(SepComm, sep!(X, A) => sep!(A, X));
        gap!(sep!(A, X) => B)
    )
);

/// From `a ∗ x ⊢ b`: `x ⊢ a -∗ b`.
#[tactic(auto, unfolding(pm_schemes::specs::Tests::passes, pm_schemes::specs::Tests::fits_row))]
pub fn to_wand(
    alloc: Global,
    vars: u32,
    a: &Formula,
    b: &Formula,
    x: &Formula,
    by: Proof,
) -> Result<Proof, Memory>
    requires { conclusion by ≡ entail vars (view.Sep a.now x.now) b.now }
    ensures { IfOk result (λ p. Closes by (entail vars x.now (view.Wand a.now b.now)) 3 (deepest (a.now ∷ b.now ∷ x.now ∷ []) [] + 1) vars p) }
{
    let letters = Letters {
        formulas: &[a, b, x],
        pures: &[],
    };
    let proof = close(alloc, vars, &WAND, letters, by)?;
    Ok(proof)
}

/// From X ∧ A ⊢ B: X ⊢ A → B.
static IMP: Scheme = step!(ImpI, X => imp!(A, B); gap!(and!(X, A) => B));

/// From `x ∧ a ⊢ b`: `x ⊢ a → b`.
#[tactic(auto, unfolding(pm_schemes::specs::Tests::passes, pm_schemes::specs::Tests::fits_row))]
pub fn to_imp(
    alloc: Global,
    vars: u32,
    a: &Formula,
    b: &Formula,
    x: &Formula,
    by: Proof,
) -> Result<Proof, Memory>
    requires { conclusion by ≡ entail vars (view.And x.now a.now) b.now }
    ensures { IfOk result (λ p. Closes by (entail vars x.now (view.Imp a.now b.now)) 1 (deepest (a.now ∷ b.now ∷ x.now ∷ []) [] + 1) vars p) }
{
    let letters = Letters {
        formulas: &[a, b, x],
        pures: &[],
    };
    let proof = close(alloc, vars, &IMP, letters, by)?;
    Ok(proof)
}

/// From A ⊢ B: A ∗ X ⊢ B ∗ X.
static BESIDE: Scheme = step!(SepMono, sep!(A, X) => sep!(B, X); gap!(A => B); step!(Refl, X => X));

/// From `a ⊢ b`: `a ∗ x ⊢ b ∗ x`.
#[tactic(auto, unfolding(pm_schemes::specs::Tests::passes, pm_schemes::specs::Tests::fits_row))]
pub fn beside(
    alloc: Global,
    vars: u32,
    a: &Formula,
    b: &Formula,
    x: &Formula,
    by: Proof,
) -> Result<Proof, Memory>
    requires { conclusion by ≡ entail vars a.now b.now }
    ensures { IfOk result (λ p. Closes by (entail vars (view.Sep a.now x.now) (view.Sep b.now x.now)) 2 (deepest (a.now ∷ b.now ∷ x.now ∷ []) [] + 1) vars p) }
{
    let letters = Letters {
        formulas: &[a, b, x],
        pures: &[],
    };
    let proof = close(alloc, vars, &BESIDE, letters, by)?;
    Ok(proof)
}

/// From A ∗ X ⊢ Y and B ∗ X ⊢ Y: (A ∨ B) ∗ X ⊢ Y.
static CASES: Scheme = step!(
    WandE, sep!(or!(A, B), X) => Y;
    step!(
        OrE, or!(A, B) => wand!(X, Y);
        step!(WandI, A => wand!(X, Y); gap!(sep!(A, X) => Y));
        step!(WandI, B => wand!(X, Y); gap!(sep!(B, X) => Y))
    )
);

/// From `a ∗ x ⊢ y` and `b ∗ x ⊢ y`: `(a ∨ b) ∗ x ⊢ y`.
#[tactic(auto, unfolding(pm_schemes::specs::Tests::passes, pm_schemes::specs::Tests::fits_row))]
pub fn by_cases(
    alloc: Global,
    vars: u32,
    a: &Formula,
    b: &Formula,
    x: &Formula,
    y: &Formula,
    first: Proof,
    second: Proof,
) -> Result<Proof, Memory>
    requires first { conclusion first ≡ entail vars (view.Sep a.now x.now) y.now }
    requires second { conclusion second ≡ entail vars (view.Sep b.now x.now) y.now }
    ensures { IfOk result (λ p. ClosesBoth first second (entail vars (view.Sep (view.Or a.now b.now) x.now) y.now) 4 (deepest (a.now ∷ b.now ∷ x.now ∷ y.now ∷ []) [] + 2) vars p) }
{
    let letters = Letters {
        formulas: &[a, b, x, y],
        pures: &[],
    };
    let proof = close_both(alloc, vars, &CASES, letters, first, second)?;
    Ok(proof)
}

/// From A ∗ B ⊢ X: A ⊢ B -∗ X.
static CURRIED: Scheme = step!(WandI, A => wand!(B, X); gap!(sep!(A, B) => X));

/// From `a ∗ b ⊢ x`: `a ⊢ b -∗ x`.
#[tactic(auto, unfolding(pm_schemes::specs::Tests::passes, pm_schemes::specs::Tests::fits_row))]
pub fn curried(
    alloc: Global,
    vars: u32,
    a: &Formula,
    b: &Formula,
    x: &Formula,
    by: Proof,
) -> Result<Proof, Memory>
    requires { conclusion by ≡ entail vars (view.Sep a.now b.now) x.now }
    ensures { IfOk result (λ p. Closes by (entail vars a.now (view.Wand b.now x.now)) 1 (deepest (a.now ∷ b.now ∷ x.now ∷ []) [] + 1) vars p) }
{
    let letters = Letters {
        formulas: &[a, b, x],
        pures: &[],
    };
    let proof = close(alloc, vars, &CURRIED, letters, by)?;
    Ok(proof)
}

/// From A ⊢ B -∗ X: A ∗ B ⊢ X.
static APPLIED: Scheme = step!(WandE, sep!(A, B) => X; gap!(A => wand!(B, X)));

/// From `a ⊢ b -∗ x`: `a ∗ b ⊢ x`.
#[tactic(auto, unfolding(pm_schemes::specs::Tests::passes, pm_schemes::specs::Tests::fits_row))]
pub fn applied(
    alloc: Global,
    vars: u32,
    a: &Formula,
    b: &Formula,
    x: &Formula,
    by: Proof,
) -> Result<Proof, Memory>
    requires { conclusion by ≡ entail vars a.now (view.Wand b.now x.now) }
    ensures { IfOk result (λ p. Closes by (entail vars (view.Sep a.now b.now) x.now) 1 (deepest (a.now ∷ b.now ∷ x.now ∷ []) [] + 1) vars p) }
{
    let letters = Letters {
        formulas: &[a, b, x],
        pures: &[],
    };
    let proof = close(alloc, vars, &APPLIED, letters, by)?;
    Ok(proof)
}

/// A ∧ B ⊢ A
static LEFT_PART: Scheme = step!(AndL, and!(A, B) => A);

/// `a ∧ b ⊢ a`
#[tactic(auto, unfolding(pm_schemes::specs::Tests::passes, pm_schemes::specs::Tests::fits_row))]
pub fn left_part(alloc: Global, vars: u32, a: &Formula, b: &Formula) -> Result<Proof, Memory>
    ensures { IfOk result (λ p. Proves Every (entail vars (view.And a.now b.now) a.now) [] 1 (deepest (a.now ∷ b.now ∷ []) [] + 1) vars p) }
{
    let letters = Letters {
        formulas: &[a, b],
        pures: &[],
    };
    let proof = derive(alloc, vars, &LEFT_PART, letters)?;
    Ok(proof)
}

/// A ∧ B ⊢ B
static RIGHT_PART: Scheme = step!(AndR, and!(A, B) => B);

/// `a ∧ b ⊢ b`
#[tactic(auto, unfolding(pm_schemes::specs::Tests::passes, pm_schemes::specs::Tests::fits_row))]
pub fn right_part(alloc: Global, vars: u32, a: &Formula, b: &Formula) -> Result<Proof, Memory>
    ensures { IfOk result (λ p. Proves Every (entail vars (view.And a.now b.now) b.now) [] 1 (deepest (a.now ∷ b.now ∷ []) [] + 1) vars p) }
{
    let letters = Letters {
        formulas: &[a, b],
        pures: &[],
    };
    let proof = derive(alloc, vars, &RIGHT_PART, letters)?;
    Ok(proof)
}

/// From A ⊢ B ∨ X: □ A ⊢ □ B ∨ □ X.
static BOXED_EITHER: Scheme = step!(
    Trans, pers!(A) => or!(pers!(B), pers!(X));
    step!(PersMono, pers!(A) => pers!(or!(B, X)); gap!(A => or!(B, X)));
    step!(PersOr, pers!(or!(B, X)) => or!(pers!(B), pers!(X)))
);

/// From `a ⊢ b ∨ x`: `□ a ⊢ □ b ∨ □ x`.
#[tactic(auto, unfolding(pm_schemes::specs::Tests::passes, pm_schemes::specs::Tests::fits_row))]
pub fn boxed_either(
    alloc: Global,
    vars: u32,
    a: &Formula,
    b: &Formula,
    x: &Formula,
    by: Proof,
) -> Result<Proof, Memory>
    requires { conclusion by ≡ entail vars a.now (view.Or b.now x.now) }
    ensures { IfOk result (λ p. Closes by (entail vars (view.Pers a.now) (view.Or (view.Pers b.now) (view.Pers x.now))) 3 (deepest (a.now ∷ b.now ∷ x.now ∷ []) [] + 2) vars p) }
{
    let letters = Letters {
        formulas: &[a, b, x],
        pures: &[],
    };
    let proof = close(alloc, vars, &BOXED_EITHER, letters, by)?;
    Ok(proof)
}

/// From A ⊢ ∃ B: □ A ⊢ ∃ □ B.
static BOXED_EXISTS: Scheme = step!(
    Trans, pers!(A) => ex!(pers!(B));
    step!(PersMono, pers!(A) => pers!(ex!(B)); gap!(A => ex!(B)));
    step!(PersEx, pers!(ex!(B)) => ex!(pers!(B)))
);

/// From `a ⊢ ∃ b`: `□ a ⊢ ∃ □ b`.
#[tactic(auto, unfolding(pm_schemes::specs::Tests::passes, pm_schemes::specs::Tests::fits_row))]
pub fn boxed_exists(
    alloc: Global,
    vars: u32,
    a: &Formula,
    b: &Formula,
    by: Proof,
) -> Result<Proof, Memory>
    requires { conclusion by ≡ entail vars a.now (view.Ex b.now) }
    ensures { IfOk result (λ p. Closes by (entail vars (view.Pers a.now) (view.Ex (view.Pers b.now))) 3 (deepest (a.now ∷ b.now ∷ []) [] + 2) vars p) }
{
    let letters = Letters {
        formulas: &[a, b],
        pures: &[],
    };
    let proof = close(alloc, vars, &BOXED_EXISTS, letters, by)?;
    Ok(proof)
}

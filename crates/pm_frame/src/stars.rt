//! Framing in separating conjunctions.

ghost use Rattle.std.specs.Prelude.{◌≡◌, ◌+◌, [], ◌∷◌, Some, None, IfOk};
ghost use Rattle.pm_logic.specs.declared.formula.Formula.TheViews as view;
ghost use Rattle.pm_proof.specs.Trees.{entail, conclusion};
ghost use Rattle.pm_schemes.specs.Sketches.{deepest};
ghost use Rattle.pm_classes.specs.Closing.{Closes};
ghost use Rattle.pm_table.specs.Framing.{truth, star, frame};
ghost use Rattle.pm_frame.specs.Frames.{FrameAnswer, FrameAnswers};

use crate::closing::close;
use crate::framed::Framed;
use crate::leaves::is_truth;
use pm_logic::{Formula, Memory, copy};
use pm_proof::Proof;
use pm_schemes::{Letters, Pattern, PurePattern, Scheme, gap, sep, step};
use std::alloc::Global;

const R: Pattern = Pattern::Letter(0);

const A: Pattern = Pattern::Letter(1);

const B: Pattern = Pattern::Letter(2);

/// What is left of the side that is framed.
const X: Pattern = Pattern::Letter(3);

const TRUTH: Pattern = Pattern::Pure(&PurePattern::True);

/// R ⊢ R ∗ ⊤
const BESIDE_TRUTH: Scheme = step!(
    Trans, R => sep!(R, TRUTH);
    step!(SepUnit, R => sep!(TRUTH, R));
    step!(SepComm, sep!(TRUTH, R) => sep!(R, TRUTH))
);

/// From R ∗ X ⊢ A: R ∗ (X ∗ B) ⊢ A ∗ B.
static LEFT: Scheme = step!(
    Trans, sep!(R, sep!(X, B)) => sep!(A, B);
    step!(SepAssocL, sep!(R, sep!(X, B)) => sep!(sep!(R, X), B));
    step!(
        SepMono, sep!(sep!(R, X), B) => sep!(A, B);
        gap!(sep!(R, X) => A);
        step!(Refl, B => B)
    )
);

/// From R ∗ ⊤ ⊢ A: R ∗ B ⊢ A ∗ B.
static LEFT_GONE: Scheme = step!(
    SepMono, sep!(R, B) => sep!(A, B);
    step!(Trans, R => A; BESIDE_TRUTH; gap!(sep!(R, TRUTH) => A));
    step!(Refl, B => B)
);

/// From R ∗ X ⊢ B: R ∗ (A ∗ X) ⊢ A ∗ B.
static RIGHT: Scheme = step!(
    Trans, sep!(R, sep!(A, X)) => sep!(A, B);
    step!(SepAssocL, sep!(R, sep!(A, X)) => sep!(sep!(R, A), X));
    step!(
        Trans, sep!(sep!(R, A), X) => sep!(A, B);
        step!(
            SepMono, sep!(sep!(R, A), X) => sep!(sep!(A, R), X);
            step!(SepComm, sep!(R, A) => sep!(A, R));
            step!(Refl, X => X)
        );
        step!(
            Trans, sep!(sep!(A, R), X) => sep!(A, B);
            step!(SepAssocR, sep!(sep!(A, R), X) => sep!(A, sep!(R, X)));
            step!(
                SepMono, sep!(A, sep!(R, X)) => sep!(A, B);
                step!(Refl, A => A);
                gap!(sep!(R, X) => B)
            )
        )
    )
);

/// From R ∗ ⊤ ⊢ B: R ∗ A ⊢ A ∗ B.
static RIGHT_GONE: Scheme = step!(
    Trans, sep!(R, A) => sep!(A, B);
    step!(SepComm, sep!(R, A) => sep!(A, R));
    step!(
        SepMono, sep!(A, R) => sep!(A, B);
        step!(Refl, A => A);
        step!(Trans, R => B; BESIDE_TRUTH; gap!(sep!(R, TRUTH) => B))
    )
);

/// What is left of `A ∗ B`, from what is left of `A`.
pub fn on_left(
    alloc: Global,
    vars: u32,
    r: &Formula,
    a: &Formula,
    b: &Formula,
    x: Framed,
) -> Result<Option<Framed>, Memory>
    requires { FrameAnswer vars r.now a.now (Some x) }
    ensures { IfOk result (λ f. FrameAnswers vars r.now (view.Sep a.now b.now) (star a.now b.now (frame r.now a.now) (frame r.now b.now)) f) }
{
    let Framed { rest, proof } = x;
    if is_truth(&rest) {
        let proof = left_gone(alloc, vars, r, a, b, proof)?;
        let rest = copy(alloc, b)?;
        return Ok(Some(Framed { rest, proof }));
    }
    let proof = left_kept(alloc, vars, r, a, b, &rest, proof)?;
    let rest = pm_logic::sep(alloc, rest, copy(alloc, b)?)?;
    Ok(Some(Framed { rest, proof }))
}

/// What is left of `A ∗ B`, from what is left of `B`, where `A` has no rest.
pub fn on_right(
    alloc: Global,
    vars: u32,
    r: &Formula,
    a: &Formula,
    b: &Formula,
    x: Option<Framed>,
) -> Result<Option<Framed>, Memory>
    requires left { frame r.now a.now ≡ None }
    requires right { FrameAnswer vars r.now b.now x }
    ensures { IfOk result (λ f. FrameAnswers vars r.now (view.Sep a.now b.now) (star a.now b.now (frame r.now a.now) (frame r.now b.now)) f) }
{
    let Some(x) = x else {
        return Ok(None);
    };
    let Framed { rest, proof } = x;
    if is_truth(&rest) {
        let proof = right_gone(alloc, vars, r, a, b, proof)?;
        let rest = copy(alloc, a)?;
        return Ok(Some(Framed { rest, proof }));
    }
    let proof = right_kept(alloc, vars, r, a, b, &rest, proof)?;
    let rest = pm_logic::sep(alloc, copy(alloc, a)?, rest)?;
    Ok(Some(Framed { rest, proof }))
}

#[tactic(auto, unfolding(pm_schemes::specs::Tests::passes, pm_schemes::specs::Tests::fits_row))]
fn left_kept(
    alloc: Global,
    vars: u32,
    r: &Formula,
    a: &Formula,
    b: &Formula,
    x: &Formula,
    inner: Proof,
) -> Result<Proof, Memory>
    requires { conclusion inner ≡ entail vars (view.Sep r.now x.now) a.now }
    ensures { IfOk result (λ p. Closes inner (entail vars (view.Sep r.now (view.Sep x.now b.now)) (view.Sep a.now b.now)) 4 (deepest (r.now ∷ a.now ∷ b.now ∷ x.now ∷ []) [] + 2) vars p) }
{
    let letters = Letters {
        formulas: &[r, a, b, x],
        pures: &[],
    };
    let proof = close(alloc, vars, &LEFT, letters, inner)?;
    Ok(proof)
}

#[tactic(auto, unfolding(pm_schemes::specs::Tests::passes, pm_schemes::specs::Tests::fits_row))]
fn left_gone(
    alloc: Global,
    vars: u32,
    r: &Formula,
    a: &Formula,
    b: &Formula,
    inner: Proof,
) -> Result<Proof, Memory>
    requires { conclusion inner ≡ entail vars (view.Sep r.now truth) a.now }
    ensures { IfOk result (λ p. Closes inner (entail vars (view.Sep r.now b.now) (view.Sep a.now b.now)) 6 (deepest (r.now ∷ a.now ∷ b.now ∷ []) [] + 3) vars p) }
{
    let letters = Letters {
        formulas: &[r, a, b],
        pures: &[],
    };
    let proof = close(alloc, vars, &LEFT_GONE, letters, inner)?;
    Ok(proof)
}

#[tactic(auto, unfolding(pm_schemes::specs::Tests::passes, pm_schemes::specs::Tests::fits_row))]
fn right_kept(
    alloc: Global,
    vars: u32,
    r: &Formula,
    a: &Formula,
    b: &Formula,
    x: &Formula,
    inner: Proof,
) -> Result<Proof, Memory>
    requires { conclusion inner ≡ entail vars (view.Sep r.now x.now) b.now }
    ensures { IfOk result (λ p. Closes inner (entail vars (view.Sep r.now (view.Sep a.now x.now)) (view.Sep a.now b.now)) 10 (deepest (r.now ∷ a.now ∷ b.now ∷ x.now ∷ []) [] + 2) vars p) }
{
    let letters = Letters {
        formulas: &[r, a, b, x],
        pures: &[],
    };
    let proof = close(alloc, vars, &RIGHT, letters, inner)?;
    Ok(proof)
}

#[tactic(auto, unfolding(pm_schemes::specs::Tests::passes, pm_schemes::specs::Tests::fits_row))]
fn right_gone(
    alloc: Global,
    vars: u32,
    r: &Formula,
    a: &Formula,
    b: &Formula,
    inner: Proof,
) -> Result<Proof, Memory>
    requires { conclusion inner ≡ entail vars (view.Sep r.now truth) b.now }
    ensures { IfOk result (λ p. Closes inner (entail vars (view.Sep r.now a.now) (view.Sep a.now b.now)) 8 (deepest (r.now ∷ a.now ∷ b.now ∷ []) [] + 3) vars p) }
{
    let letters = Letters {
        formulas: &[r, a, b],
        pures: &[],
    };
    let proof = close(alloc, vars, &RIGHT_GONE, letters, inner)?;
    Ok(proof)
}

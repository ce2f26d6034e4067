//! Framing under modalities and in wands.

ghost use Rattle.std.specs.Prelude.{◌≡◌, ◌+◌, [], ◌∷◌, Some, IfOk};
ghost use Rattle.pm_logic.specs.declared.formula.Formula.TheViews as view;
ghost use Rattle.pm_proof.specs.Trees.{entail, conclusion};
ghost use Rattle.pm_schemes.specs.Sketches.{deepest};
ghost use Rattle.pm_classes.specs.Closing.{Closes};
ghost use Rattle.pm_table.specs.Framing.{truth, above, frame};
ghost use Rattle.pm_frame.specs.Frames.{FrameAnswer, FrameAnswers};

use crate::closing::close;
use crate::framed::Framed;
use crate::leaves::is_truth;
use pm_logic::{Formula, Memory, Pure, copy};
use pm_proof::Proof;
use pm_schemes::{Letters, Pattern, PurePattern, Scheme, gap, later, sep, step, upd, wand};
use std::alloc::Global;

const R: Pattern = Pattern::Letter(0);

const A: Pattern = Pattern::Letter(1);

const X: Pattern = Pattern::Letter(2);

/// The left side of a wand whose right side is `A`, and what is left of that.
const L: Pattern = Pattern::Letter(2);

const Y: Pattern = Pattern::Letter(3);

const TRUTH: Pattern = Pattern::Pure(&PurePattern::True);

/// From R ∗ X ⊢ A: R ∗ ▷ X ⊢ ▷ A.
static LATER: Scheme = step!(
    Trans, sep!(R, later!(X)) => later!(A);
    step!(
        SepMono, sep!(R, later!(X)) => sep!(later!(R), later!(X));
        step!(LaterIntro, R => later!(R));
        step!(Refl, later!(X) => later!(X))
    );
    step!(
        Trans, sep!(later!(R), later!(X)) => later!(A);
        step!(SepLater, sep!(later!(R), later!(X)) => later!(sep!(R, X)));
        step!(LaterMono, later!(sep!(R, X)) => later!(A); gap!(sep!(R, X) => A))
    )
);

/// From R ∗ ⊤ ⊢ A: R ∗ ⊤ ⊢ ▷ A.
static LATER_GONE: Scheme = step!(
    Trans, sep!(R, TRUTH) => later!(A);
    gap!(sep!(R, TRUTH) => A);
    step!(LaterIntro, A => later!(A))
);

/// From R ∗ X ⊢ A: ▷ R ∗ ▷ X ⊢ ▷ A.
static BOTH_LATER: Scheme = step!(
    Trans, sep!(later!(R), later!(X)) => later!(A);
    step!(SepLater, sep!(later!(R), later!(X)) => later!(sep!(R, X)));
    step!(LaterMono, later!(sep!(R, X)) => later!(A); gap!(sep!(R, X) => A))
);

/// From R ∗ ⊤ ⊢ A: ▷ R ∗ ⊤ ⊢ ▷ A.
static BOTH_LATER_GONE: Scheme = step!(
    Trans, sep!(later!(R), TRUTH) => later!(A);
    step!(
        SepMono, sep!(later!(R), TRUTH) => sep!(later!(R), later!(TRUTH));
        step!(Refl, later!(R) => later!(R));
        step!(LaterIntro, TRUTH => later!(TRUTH))
    );
    step!(
        Trans, sep!(later!(R), later!(TRUTH)) => later!(A);
        step!(SepLater, sep!(later!(R), later!(TRUTH)) => later!(sep!(R, TRUTH)));
        step!(LaterMono, later!(sep!(R, TRUTH)) => later!(A); gap!(sep!(R, TRUTH) => A))
    )
);

/// From R ∗ X ⊢ A: R ∗ |==> X ⊢ |==> A.
static UPDATE: Scheme = step!(
    Trans, sep!(R, upd!(X)) => upd!(A);
    step!(UpdFrame, sep!(R, upd!(X)) => upd!(sep!(R, X)));
    step!(UpdMono, upd!(sep!(R, X)) => upd!(A); gap!(sep!(R, X) => A))
);

/// From R ∗ ⊤ ⊢ A: R ∗ ⊤ ⊢ |==> A.
static UPDATE_GONE: Scheme = step!(
    Trans, sep!(R, TRUTH) => upd!(A);
    gap!(sep!(R, TRUTH) => A);
    step!(UpdIntro, A => upd!(A))
);

/// From R ∗ Y ⊢ A: R ∗ (L -∗ Y) ⊢ L -∗ A.
static WAND: Scheme = step!(
    WandI, sep!(R, wand!(L, Y)) => wand!(L, A);
    step!(
        Trans, sep!(sep!(R, wand!(L, Y)), L) => A;
        step!(SepAssocR, sep!(sep!(R, wand!(L, Y)), L) => sep!(R, sep!(wand!(L, Y), L)));
        step!(
            Trans, sep!(R, sep!(wand!(L, Y), L)) => A;
            step!(
                SepMono, sep!(R, sep!(wand!(L, Y), L)) => sep!(R, Y);
                step!(Refl, R => R);
                step!(
                    WandE, sep!(wand!(L, Y), L) => Y;
                    step!(Refl, wand!(L, Y) => wand!(L, Y))
                )
            );
            gap!(sep!(R, Y) => A)
        )
    )
);

/// From R ∗ ⊤ ⊢ A: R ∗ ⊤ ⊢ L -∗ A.
static WAND_GONE: Scheme = step!(
    WandI, sep!(R, TRUTH) => wand!(L, A);
    step!(
        Trans, sep!(sep!(R, TRUTH), L) => A;
        step!(SepWeaken, sep!(sep!(R, TRUTH), L) => sep!(R, TRUTH));
        gap!(sep!(R, TRUTH) => A)
    )
);

/// What is left of `▷ A`, from what is left of `A`.
pub fn in_later(
    alloc: Global,
    vars: u32,
    r: &Formula,
    a: &Formula,
    x: Option<Framed>,
) -> Result<Option<Framed>, Memory>
    requires { FrameAnswer vars r.now a.now x }
    ensures { IfOk result (λ f. FrameAnswers vars r.now (view.Later a.now) (above view.Later (frame r.now a.now)) f) }
{
    let Some(x) = x else {
        return Ok(None);
    };
    if is_truth(&x.rest) {
        let whole = later_gone(alloc, vars, r, a, x)?;
        return Ok(Some(whole));
    }
    let whole = later_kept(alloc, vars, r, a, x)?;
    Ok(Some(whole))
}

#[tactic(auto, unfolding(pm_schemes::specs::Tests::passes, pm_schemes::specs::Tests::fits_row))]
fn later_kept(
    alloc: Global,
    vars: u32,
    r: &Formula,
    a: &Formula,
    x: Framed,
) -> Result<Framed, Memory>
    requires { conclusion x.proof ≡ entail vars (view.Sep r.now x.rest) a.now }
    ensures rest { IfOk result (λ f. f.rest ≡ view.Later x.rest) }
    ensures proof { IfOk result (λ f. Closes x.proof (entail vars (view.Sep r.now (view.Later x.rest)) (view.Later a.now)) 7 (deepest (r.now ∷ a.now ∷ x.rest ∷ []) [] + 2) vars f.proof) }
{
    let Framed { rest, proof } = x;
    let letters = Letters {
        formulas: &[r, a, &rest],
        pures: &[],
    };
    let proof = close(alloc, vars, &LATER, letters, proof)?;
    let rest = pm_logic::later(alloc, rest)?;
    Ok(Framed { rest, proof })
}

#[tactic(auto, unfolding(pm_schemes::specs::Tests::passes, pm_schemes::specs::Tests::fits_row))]
fn later_gone(
    alloc: Global,
    vars: u32,
    r: &Formula,
    a: &Formula,
    x: Framed,
) -> Result<Framed, Memory>
    requires { conclusion x.proof ≡ entail vars (view.Sep r.now truth) a.now }
    ensures rest { IfOk result (λ f. f.rest ≡ truth) }
    ensures proof { IfOk result (λ f. Closes x.proof (entail vars (view.Sep r.now truth) (view.Later a.now)) 2 (deepest (r.now ∷ a.now ∷ []) [] + 3) vars f.proof) }
{
    let letters = Letters {
        formulas: &[r, a],
        pures: &[],
    };
    let proof = close(alloc, vars, &LATER_GONE, letters, x.proof)?;
    let rest = Formula::Pure(Pure::True);
    Ok(Framed { rest, proof })
}

/// What is left of `|==> A`, from what is left of `A`.
pub fn in_update(
    alloc: Global,
    vars: u32,
    r: &Formula,
    a: &Formula,
    x: Option<Framed>,
) -> Result<Option<Framed>, Memory>
    requires { FrameAnswer vars r.now a.now x }
    ensures { IfOk result (λ f. FrameAnswers vars r.now (view.Upd a.now) (above view.Upd (frame r.now a.now)) f) }
{
    let Some(x) = x else {
        return Ok(None);
    };
    if is_truth(&x.rest) {
        let whole = update_gone(alloc, vars, r, a, x)?;
        return Ok(Some(whole));
    }
    let whole = update_kept(alloc, vars, r, a, x)?;
    Ok(Some(whole))
}

#[tactic(auto, unfolding(pm_schemes::specs::Tests::passes, pm_schemes::specs::Tests::fits_row))]
fn update_kept(
    alloc: Global,
    vars: u32,
    r: &Formula,
    a: &Formula,
    x: Framed,
) -> Result<Framed, Memory>
    requires { conclusion x.proof ≡ entail vars (view.Sep r.now x.rest) a.now }
    ensures rest { IfOk result (λ f. f.rest ≡ view.Upd x.rest) }
    ensures proof { IfOk result (λ f. Closes x.proof (entail vars (view.Sep r.now (view.Upd x.rest)) (view.Upd a.now)) 3 (deepest (r.now ∷ a.now ∷ x.rest ∷ []) [] + 2) vars f.proof) }
{
    let Framed { rest, proof } = x;
    let letters = Letters {
        formulas: &[r, a, &rest],
        pures: &[],
    };
    let proof = close(alloc, vars, &UPDATE, letters, proof)?;
    let rest = pm_logic::upd(alloc, rest)?;
    Ok(Framed { rest, proof })
}

#[tactic(auto, unfolding(pm_schemes::specs::Tests::passes, pm_schemes::specs::Tests::fits_row))]
fn update_gone(
    alloc: Global,
    vars: u32,
    r: &Formula,
    a: &Formula,
    x: Framed,
) -> Result<Framed, Memory>
    requires { conclusion x.proof ≡ entail vars (view.Sep r.now truth) a.now }
    ensures rest { IfOk result (λ f. f.rest ≡ truth) }
    ensures proof { IfOk result (λ f. Closes x.proof (entail vars (view.Sep r.now truth) (view.Upd a.now)) 2 (deepest (r.now ∷ a.now ∷ []) [] + 3) vars f.proof) }
{
    let letters = Letters {
        formulas: &[r, a],
        pures: &[],
    };
    let proof = close(alloc, vars, &UPDATE_GONE, letters, x.proof)?;
    let rest = Formula::Pure(Pure::True);
    Ok(Framed { rest, proof })
}

/// What is left of `▷ A` without `▷ R`, from what is left of `A` without `R`.
pub fn in_both_later(
    alloc: Global,
    vars: u32,
    r: &Formula,
    a: &Formula,
    x: Option<Framed>,
) -> Result<Option<Framed>, Memory>
    requires { FrameAnswer vars r.now a.now x }
    ensures { IfOk result (λ f. FrameAnswers vars (view.Later r.now) (view.Later a.now) (above view.Later (frame r.now a.now)) f) }
{
    let Some(x) = x else {
        return Ok(None);
    };
    if is_truth(&x.rest) {
        let whole = both_later_gone(alloc, vars, r, a, x)?;
        return Ok(Some(whole));
    }
    let whole = both_later_kept(alloc, vars, r, a, x)?;
    Ok(Some(whole))
}

#[tactic(auto, unfolding(pm_schemes::specs::Tests::passes, pm_schemes::specs::Tests::fits_row))]
fn both_later_kept(
    alloc: Global,
    vars: u32,
    r: &Formula,
    a: &Formula,
    x: Framed,
) -> Result<Framed, Memory>
    requires { conclusion x.proof ≡ entail vars (view.Sep r.now x.rest) a.now }
    ensures rest { IfOk result (λ f. f.rest ≡ view.Later x.rest) }
    ensures proof { IfOk result (λ f. Closes x.proof (entail vars (view.Sep (view.Later r.now) (view.Later x.rest)) (view.Later a.now)) 3 (deepest (r.now ∷ a.now ∷ x.rest ∷ []) [] + 2) vars f.proof) }
{
    let Framed { rest, proof } = x;
    let letters = Letters {
        formulas: &[r, a, &rest],
        pures: &[],
    };
    let proof = close(alloc, vars, &BOTH_LATER, letters, proof)?;
    let rest = pm_logic::later(alloc, rest)?;
    Ok(Framed { rest, proof })
}

#[tactic(auto, unfolding(pm_schemes::specs::Tests::passes, pm_schemes::specs::Tests::fits_row))]
fn both_later_gone(
    alloc: Global,
    vars: u32,
    r: &Formula,
    a: &Formula,
    x: Framed,
) -> Result<Framed, Memory>
    requires { conclusion x.proof ≡ entail vars (view.Sep r.now truth) a.now }
    ensures rest { IfOk result (λ f. f.rest ≡ truth) }
    ensures proof { IfOk result (λ f. Closes x.proof (entail vars (view.Sep (view.Later r.now) truth) (view.Later a.now)) 7 (deepest (r.now ∷ a.now ∷ []) [] + 4) vars f.proof) }
{
    let letters = Letters {
        formulas: &[r, a],
        pures: &[],
    };
    let proof = close(alloc, vars, &BOTH_LATER_GONE, letters, x.proof)?;
    let rest = Formula::Pure(Pure::True);
    Ok(Framed { rest, proof })
}

/// What is left of `L -∗ A`, from what is left of `A`.
pub fn in_wand(
    alloc: Global,
    vars: u32,
    r: &Formula,
    l: &Formula,
    a: &Formula,
    x: Option<Framed>,
) -> Result<Option<Framed>, Memory>
    requires { FrameAnswer vars r.now a.now x }
    ensures { IfOk result (λ f. FrameAnswers vars r.now (view.Wand l.now a.now) (above (view.Wand l.now) (frame r.now a.now)) f) }
{
    let Some(x) = x else {
        return Ok(None);
    };
    if is_truth(&x.rest) {
        let whole = wand_gone(alloc, vars, r, l, a, x)?;
        return Ok(Some(whole));
    }
    let whole = wand_kept(alloc, vars, r, l, a, x)?;
    Ok(Some(whole))
}

fn wand_kept(
    alloc: Global,
    vars: u32,
    r: &Formula,
    l: &Formula,
    a: &Formula,
    x: Framed,
) -> Result<Framed, Memory>
    requires { conclusion x.proof ≡ entail vars (view.Sep r.now x.rest) a.now }
    ensures rest { IfOk result (λ f. f.rest ≡ view.Wand l.now x.rest) }
    ensures proof { IfOk result (λ f. Closes x.proof (entail vars (view.Sep r.now (view.Wand l.now x.rest)) (view.Wand l.now a.now)) 8 (deepest (r.now ∷ a.now ∷ l.now ∷ x.rest ∷ []) [] + 3) vars f.proof) }
{
    let Framed { rest, proof } = x;
    let proof = under_wand(alloc, vars, r, l, a, &rest, proof)?;
    let rest = pm_logic::wand(alloc, copy(alloc, l)?, rest)?;
    Ok(Framed { rest, proof })
}

#[tactic(auto, unfolding(pm_schemes::specs::Tests::passes, pm_schemes::specs::Tests::fits_row))]
fn under_wand(
    alloc: Global,
    vars: u32,
    r: &Formula,
    l: &Formula,
    a: &Formula,
    y: &Formula,
    inner: Proof,
) -> Result<Proof, Memory>
    requires { conclusion inner ≡ entail vars (view.Sep r.now y.now) a.now }
    ensures { IfOk result (λ p. Closes inner (entail vars (view.Sep r.now (view.Wand l.now y.now)) (view.Wand l.now a.now)) 8 (deepest (r.now ∷ a.now ∷ l.now ∷ y.now ∷ []) [] + 3) vars p) }
{
    let letters = Letters {
        formulas: &[r, a, l, y],
        pures: &[],
    };
    let proof = close(alloc, vars, &WAND, letters, inner)?;
    Ok(proof)
}

#[tactic(auto, unfolding(pm_schemes::specs::Tests::passes, pm_schemes::specs::Tests::fits_row))]
fn wand_gone(
    alloc: Global,
    vars: u32,
    r: &Formula,
    l: &Formula,
    a: &Formula,
    x: Framed,
) -> Result<Framed, Memory>
    requires { conclusion x.proof ≡ entail vars (view.Sep r.now truth) a.now }
    ensures rest { IfOk result (λ f. f.rest ≡ truth) }
    ensures proof { IfOk result (λ f. Closes x.proof (entail vars (view.Sep r.now truth) (view.Wand l.now a.now)) 3 (deepest (r.now ∷ a.now ∷ l.now ∷ []) [] + 4) vars f.proof) }
{
    let letters = Letters {
        formulas: &[r, a, l],
        pures: &[],
    };
    let proof = close(alloc, vars, &WAND_GONE, letters, x.proof)?;
    let rest = Formula::Pure(Pure::True);
    Ok(Framed { rest, proof })
}

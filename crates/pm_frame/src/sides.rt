//! Framing in conjunctions and disjunctions, of which both sides lose the hypothesis.

ghost use Rattle.std.specs.Prelude.{◌≡◌, ◌+◌, ◌&&◌, is_none, [], ◌∷◌, IfOk};
ghost use Rattle.pm_logic.specs.declared.formula.Formula.TheViews as view;
ghost use Rattle.pm_proof.specs.Trees.{entail, conclusion};
ghost use Rattle.pm_proof.specs.Known.{Proves, Every};
ghost use Rattle.pm_schemes.specs.Sketches.{deepest};
ghost use Rattle.pm_classes.specs.Closing.{Closes, ClosesBoth};
ghost use Rattle.pm_table.specs.Framing.{truth, conjunction, disjunction, frame};
ghost use Rattle.pm_frame.specs.Frames.{IsFramed, FrameAnswer, FrameAnswers};
ghost use Rattle.pm_frame.specs.Sides.{IsSide, and_rest, or_rest};

use crate::closing::{close, close_both};
use crate::framed::Framed;
use crate::leaves::is_truth;
use pm_logic::{Formula, Memory, Pure, copy};
use pm_proof::Proof;
use pm_schemes::{Letters, Pattern, PurePattern, Scheme, and, derive, gap, or, sep, step, wand};
use std::alloc::Global;

const R: Pattern = Pattern::Letter(0);

const A: Pattern = Pattern::Letter(1);

const B: Pattern = Pattern::Letter(2);

/// What is left of the first side.
const X: Pattern = Pattern::Letter(3);

/// What is left of the second side.
const Y: Pattern = Pattern::Letter(4);

/// What is left of the only side that is left.
const Z: Pattern = Pattern::Letter(3);

const TRUTH: Pattern = Pattern::Pure(&PurePattern::True);

/// R ∗ A ⊢ A
static KEPT: Scheme = step!(
    Trans, sep!(R, A) => A;
    step!(SepComm, sep!(R, A) => sep!(A, R));
    step!(SepWeaken, sep!(A, R) => A)
);

/// From R ∗ X ⊢ A and R ∗ Y ⊢ B: R ∗ (X ∧ Y) ⊢ A ∧ B.
static AND: Scheme = step!(
    AndI, sep!(R, and!(X, Y)) => and!(A, B);
    step!(
        Trans, sep!(R, and!(X, Y)) => A;
        step!(
            SepMono, sep!(R, and!(X, Y)) => sep!(R, X);
            step!(Refl, R => R);
            step!(AndL, and!(X, Y) => X)
        );
        gap!(sep!(R, X) => A)
    );
    step!(
        Trans, sep!(R, and!(X, Y)) => B;
        step!(
            SepMono, sep!(R, and!(X, Y)) => sep!(R, Y);
            step!(Refl, R => R);
            step!(AndR, and!(X, Y) => Y)
        );
        gap!(sep!(R, Y) => B)
    )
);

/// R ∗ Z ⊢ R ∗ ⊤
const TO_TRUTH: Scheme = step!(
    SepMono, sep!(R, Z) => sep!(R, TRUTH);
    step!(Refl, R => R);
    step!(True, Z => TRUTH)
);

/// From R ∗ ⊤ ⊢ A and R ∗ Z ⊢ B: R ∗ Z ⊢ A ∧ B.
static AND_FIRST_GONE: Scheme = step!(
    AndI, sep!(R, Z) => and!(A, B);
    step!(Trans, sep!(R, Z) => A; TO_TRUTH; gap!(sep!(R, TRUTH) => A));
    gap!(sep!(R, Z) => B)
);

/// From R ∗ Z ⊢ A and R ∗ ⊤ ⊢ B: R ∗ Z ⊢ A ∧ B.
static AND_SECOND_GONE: Scheme = step!(
    AndI, sep!(R, Z) => and!(A, B);
    gap!(sep!(R, Z) => A);
    step!(Trans, sep!(R, Z) => B; TO_TRUTH; gap!(sep!(R, TRUTH) => B))
);

/// From R ∗ X ⊢ A and R ∗ Y ⊢ B: R ∗ (X ∨ Y) ⊢ A ∨ B.
static OR: Scheme = step!(
    Trans, sep!(R, or!(X, Y)) => or!(A, B);
    step!(SepComm, sep!(R, or!(X, Y)) => sep!(or!(X, Y), R));
    step!(
        WandE, sep!(or!(X, Y), R) => or!(A, B);
        step!(
            OrE, or!(X, Y) => wand!(R, or!(A, B));
            step!(
                WandI, X => wand!(R, or!(A, B));
                step!(
                    Trans, sep!(X, R) => or!(A, B);
                    step!(SepComm, sep!(X, R) => sep!(R, X));
                    step!(
                        Trans, sep!(R, X) => or!(A, B);
                        gap!(sep!(R, X) => A);
                        step!(OrL, A => or!(A, B))
                    )
                )
            );
            step!(
                WandI, Y => wand!(R, or!(A, B));
                step!(
                    Trans, sep!(Y, R) => or!(A, B);
                    step!(SepComm, sep!(Y, R) => sep!(R, Y));
                    step!(
                        Trans, sep!(R, Y) => or!(A, B);
                        gap!(sep!(R, Y) => B);
                        step!(OrR, B => or!(A, B))
                    )
                )
            )
        )
    )
);

/// From R ∗ ⊤ ⊢ A: R ∗ ⊤ ⊢ A ∨ B.
static OR_FIRST_GONE: Scheme = step!(
    Trans, sep!(R, TRUTH) => or!(A, B);
    gap!(sep!(R, TRUTH) => A);
    step!(OrL, A => or!(A, B))
);

/// From R ∗ ⊤ ⊢ B: R ∗ ⊤ ⊢ A ∨ B.
static OR_SECOND_GONE: Scheme = step!(
    Trans, sep!(R, TRUTH) => or!(A, B);
    gap!(sep!(R, TRUTH) => B);
    step!(OrR, B => or!(A, B))
);

/// A side with what is left of it, which is the side itself where it has no rest, and whether it has one, which is truth.
#[derive(Drop)]
struct Side {
    framed: Framed,
    gone: bool,
}

/// What is left of `A ∧ B`, from what is left of each side.
pub fn in_conjunction(
    alloc: Global,
    vars: u32,
    r: &Formula,
    a: &Formula,
    b: &Formula,
    x: Option<Framed>,
    y: Option<Framed>,
) -> Result<Option<Framed>, Memory>
    requires first { FrameAnswer vars r.now a.now x }
    requires second { FrameAnswer vars r.now b.now y }
    ensures { IfOk result (λ f. FrameAnswers vars r.now (view.And a.now b.now) (conjunction a.now b.now (frame r.now a.now) (frame r.now b.now)) f) }
{
    if neither(&x, &y) {
        return Ok(None);
    }
    let first = side_of(alloc, vars, r, a, x)?;
    let second = side_of(alloc, vars, r, b, y)?;
    let whole = conjoined(alloc, vars, r, a, b, first, second)?;
    Ok(Some(whole))
}

/// What is left of `A ∨ B`, from what is left of each side.
pub fn in_disjunction(
    alloc: Global,
    vars: u32,
    r: &Formula,
    a: &Formula,
    b: &Formula,
    x: Option<Framed>,
    y: Option<Framed>,
) -> Result<Option<Framed>, Memory>
    requires first { FrameAnswer vars r.now a.now x }
    requires second { FrameAnswer vars r.now b.now y }
    ensures { IfOk result (λ f. FrameAnswers vars r.now (view.Or a.now b.now) (disjunction a.now b.now (frame r.now a.now) (frame r.now b.now)) f) }
{
    if neither(&x, &y) {
        return Ok(None);
    }
    let first = side_of(alloc, vars, r, a, x)?;
    let second = side_of(alloc, vars, r, b, y)?;
    let whole = disjoined(alloc, vars, r, a, b, first, second)?;
    Ok(Some(whole))
}

fn neither(x: &Option<Framed>, y: &Option<Framed>) -> bool
    ensures { result ≡ (is_none x.now && is_none y.now) }
{
    x.is_none() && y.is_none()
}

fn side_of(
    alloc: Global,
    vars: u32,
    r: &Formula,
    a: &Formula,
    x: Option<Framed>,
) -> Result<Side, Memory>
    requires { FrameAnswer vars r.now a.now x }
    ensures { IfOk result (λ s. IsSide vars r.now a.now (frame r.now a.now) s.framed s.gone) }
{
    match x {
        Some(framed) => {
            let gone = is_truth(&framed.rest);
            Ok(Side { framed, gone })
        }
        None => {
            let rest = copy(alloc, a)?;
            let proof = kept(alloc, vars, r, a)?;
            let framed = Framed { rest, proof };
            Ok(Side {
                framed,
                gone: false,
            })
        }
    }
}

fn conjoined(
    alloc: Global,
    vars: u32,
    r: &Formula,
    a: &Formula,
    b: &Formula,
    x: Side,
    y: Side,
) -> Result<Framed, Memory>
    requires first { IsSide vars r.now a.now (frame r.now a.now) x.framed x.gone }
    requires second { IsSide vars r.now b.now (frame r.now b.now) y.framed y.gone }
    ensures { IfOk result (λ f. IsFramed vars r.now (view.And a.now b.now) (and_rest a.now b.now (frame r.now a.now) (frame r.now b.now)) f) }
{
    let Side { framed, gone } = x;
    let Framed {
        rest: left,
        proof: first,
    } = framed;
    let Side {
        framed: other,
        gone: other_gone,
    } = y;
    let Framed {
        rest: right,
        proof: second,
    } = other;
    if gone {
        let proof = and_first_gone(alloc, vars, r, a, b, &right, first, second)?;
        return Ok(Framed { rest: right, proof });
    }
    if other_gone {
        let proof = and_second_gone(alloc, vars, r, a, b, &left, first, second)?;
        return Ok(Framed { rest: left, proof });
    }
    let proof = and_kept(alloc, vars, r, a, b, &left, &right, first, second)?;
    let rest = pm_logic::and(alloc, left, right)?;
    Ok(Framed { rest, proof })
}

fn disjoined(
    alloc: Global,
    vars: u32,
    r: &Formula,
    a: &Formula,
    b: &Formula,
    x: Side,
    y: Side,
) -> Result<Framed, Memory>
    requires first { IsSide vars r.now a.now (frame r.now a.now) x.framed x.gone }
    requires second { IsSide vars r.now b.now (frame r.now b.now) y.framed y.gone }
    ensures { IfOk result (λ f. IsFramed vars r.now (view.Or a.now b.now) (or_rest a.now b.now (frame r.now a.now) (frame r.now b.now)) f) }
{
    let Side { framed, gone } = x;
    let Framed {
        rest: left,
        proof: first,
    } = framed;
    let Side {
        framed: other,
        gone: other_gone,
    } = y;
    let Framed {
        rest: right,
        proof: second,
    } = other;
    if gone {
        let proof = or_first_gone(alloc, vars, r, a, b, first)?;
        let rest = Formula::Pure(Pure::True);
        return Ok(Framed { rest, proof });
    }
    if other_gone {
        let proof = or_second_gone(alloc, vars, r, a, b, second)?;
        let rest = Formula::Pure(Pure::True);
        return Ok(Framed { rest, proof });
    }
    let proof = or_kept(alloc, vars, r, a, b, &left, &right, first, second)?;
    let rest = pm_logic::or(alloc, left, right)?;
    Ok(Framed { rest, proof })
}

#[tactic(auto, unfolding(pm_schemes::specs::Tests::passes, pm_schemes::specs::Tests::fits_row))]
fn kept(alloc: Global, vars: u32, r: &Formula, a: &Formula) -> Result<Proof, Memory>
    ensures { IfOk result (λ p. Proves Every (entail vars (view.Sep r.now a.now) a.now) [] 3 (deepest (r.now ∷ a.now ∷ []) [] + 1) vars p) }
{
    let letters = Letters {
        formulas: &[r, a],
        pures: &[],
    };
    let proof = derive(alloc, vars, &KEPT, letters)?;
    Ok(proof)
}

#[tactic(auto, unfolding(pm_schemes::specs::Tests::passes, pm_schemes::specs::Tests::fits_row))]
fn and_kept(
    alloc: Global,
    vars: u32,
    r: &Formula,
    a: &Formula,
    b: &Formula,
    x: &Formula,
    y: &Formula,
    first: Proof,
    second: Proof,
) -> Result<Proof, Memory>
    requires first { conclusion first ≡ entail vars (view.Sep r.now x.now) a.now }
    requires second { conclusion second ≡ entail vars (view.Sep r.now y.now) b.now }
    ensures { IfOk result (λ p. ClosesBoth first second (entail vars (view.Sep r.now (view.And x.now y.now)) (view.And a.now b.now)) 9 (deepest (r.now ∷ a.now ∷ b.now ∷ x.now ∷ y.now ∷ []) [] + 2) vars p) }
{
    let letters = Letters {
        formulas: &[r, a, b, x, y],
        pures: &[],
    };
    let proof = close_both(alloc, vars, &AND, letters, first, second)?;
    Ok(proof)
}

#[tactic(auto, unfolding(pm_schemes::specs::Tests::passes, pm_schemes::specs::Tests::fits_row))]
fn and_first_gone(
    alloc: Global,
    vars: u32,
    r: &Formula,
    a: &Formula,
    b: &Formula,
    y: &Formula,
    first: Proof,
    second: Proof,
) -> Result<Proof, Memory>
    requires first { conclusion first ≡ entail vars (view.Sep r.now truth) a.now }
    requires second { conclusion second ≡ entail vars (view.Sep r.now y.now) b.now }
    ensures { IfOk result (λ p. ClosesBoth first second (entail vars (view.Sep r.now y.now) (view.And a.now b.now)) 5 (deepest (r.now ∷ a.now ∷ b.now ∷ y.now ∷ []) [] + 3) vars p) }
{
    let letters = Letters {
        formulas: &[r, a, b, y],
        pures: &[],
    };
    let proof = close_both(alloc, vars, &AND_FIRST_GONE, letters, first, second)?;
    Ok(proof)
}

#[tactic(auto, unfolding(pm_schemes::specs::Tests::passes, pm_schemes::specs::Tests::fits_row))]
fn and_second_gone(
    alloc: Global,
    vars: u32,
    r: &Formula,
    a: &Formula,
    b: &Formula,
    x: &Formula,
    first: Proof,
    second: Proof,
) -> Result<Proof, Memory>
    requires first { conclusion first ≡ entail vars (view.Sep r.now x.now) a.now }
    requires second { conclusion second ≡ entail vars (view.Sep r.now truth) b.now }
    ensures { IfOk result (λ p. ClosesBoth first second (entail vars (view.Sep r.now x.now) (view.And a.now b.now)) 5 (deepest (r.now ∷ a.now ∷ b.now ∷ x.now ∷ []) [] + 3) vars p) }
{
    let letters = Letters {
        formulas: &[r, a, b, x],
        pures: &[],
    };
    let proof = close_both(alloc, vars, &AND_SECOND_GONE, letters, first, second)?;
    Ok(proof)
}

#[tactic(auto, unfolding(pm_schemes::specs::Tests::passes, pm_schemes::specs::Tests::fits_row))]
fn or_kept(
    alloc: Global,
    vars: u32,
    r: &Formula,
    a: &Formula,
    b: &Formula,
    x: &Formula,
    y: &Formula,
    first: Proof,
    second: Proof,
) -> Result<Proof, Memory>
    requires first { conclusion first ≡ entail vars (view.Sep r.now x.now) a.now }
    requires second { conclusion second ≡ entail vars (view.Sep r.now y.now) b.now }
    ensures { IfOk result (λ p. ClosesBoth first second (entail vars (view.Sep r.now (view.Or x.now y.now)) (view.Or a.now b.now)) 14 (deepest (r.now ∷ a.now ∷ b.now ∷ x.now ∷ y.now ∷ []) [] + 2) vars p) }
{
    let letters = Letters {
        formulas: &[r, a, b, x, y],
        pures: &[],
    };
    let proof = close_both(alloc, vars, &OR, letters, first, second)?;
    Ok(proof)
}

#[tactic(auto, unfolding(pm_schemes::specs::Tests::passes, pm_schemes::specs::Tests::fits_row))]
fn or_first_gone(
    alloc: Global,
    vars: u32,
    r: &Formula,
    a: &Formula,
    b: &Formula,
    inner: Proof,
) -> Result<Proof, Memory>
    requires { conclusion inner ≡ entail vars (view.Sep r.now truth) a.now }
    ensures { IfOk result (λ p. Closes inner (entail vars (view.Sep r.now truth) (view.Or a.now b.now)) 2 (deepest (r.now ∷ a.now ∷ b.now ∷ []) [] + 3) vars p) }
{
    let letters = Letters {
        formulas: &[r, a, b],
        pures: &[],
    };
    let proof = close(alloc, vars, &OR_FIRST_GONE, letters, inner)?;
    Ok(proof)
}

#[tactic(auto, unfolding(pm_schemes::specs::Tests::passes, pm_schemes::specs::Tests::fits_row))]
fn or_second_gone(
    alloc: Global,
    vars: u32,
    r: &Formula,
    a: &Formula,
    b: &Formula,
    inner: Proof,
) -> Result<Proof, Memory>
    requires { conclusion inner ≡ entail vars (view.Sep r.now truth) b.now }
    ensures { IfOk result (λ p. Closes inner (entail vars (view.Sep r.now truth) (view.Or a.now b.now)) 2 (deepest (r.now ∷ a.now ∷ b.now ∷ []) [] + 3) vars p) }
{
    let letters = Letters {
        formulas: &[r, a, b],
        pures: &[],
    };
    let proof = close(alloc, vars, &OR_SECOND_GONE, letters, inner)?;
    Ok(proof)
}

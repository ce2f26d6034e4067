//! Framing under quantifiers.

ghost use Rattle.std.specs.Prelude.{◌≡◌, ◌+◌, ◌<◌, ◌≤◌, [], ◌∷◌, IfOk};
ghost use Rattle.pm_logic.specs.declared.formula.Formula.TheViews as view;
ghost use Rattle.pm_logic.specs.declared.formula.TheConstants.{BOUND};
ghost use Rattle.pm_logic.specs.Bounds.{IsBounded};
ghost use Rattle.pm_logic.specs.Size.{depth_of};
ghost use Rattle.pm_logic.specs.Substitution.{shift_of};
ghost use Rattle.pm_proof.specs.Trees.{entail, conclusion};
ghost use Rattle.pm_proof.specs.Known.{Proves, Every};
ghost use Rattle.pm_schemes.specs.Sketches.{deepest};
ghost use Rattle.pm_classes.specs.Closing.{Closes, ClosesBoth};
ghost use Rattle.pm_classes.specs.Entries.{IsHanded};
ghost use Rattle.pm_table.specs.Framing.{truth, above, frame};
ghost use Rattle.pm_frame.specs.Frames.{AreHanded, FrameAnswer, FrameAnswers};

use crate::closing::{close, close_both, close_where};
use crate::framed::Framed;
use crate::leaves::is_truth;
use pm_logic::{Formula, Memory, Pure, Term, copy, shift};
use pm_proof::Proof;
use pm_schemes::{
    Letters, Pattern, PurePattern, Scheme, eliminate, ex, gap, generalize, sep, specialize, step,
    wand, witness,
};
use std::alloc::Global;

/// The hypothesis, shifted.
const S: Pattern = Pattern::Letter(0);

const A: Pattern = Pattern::Letter(1);

/// The quantified formula, shifted, and its body.
const Q: Pattern = Pattern::Letter(2);

const X: Pattern = Pattern::Letter(3);

/// From Q ⊢ X and S ∗ X ⊢ A: S ∗ Q ⊢ A.
static BEFORE: Scheme = step!(
    Trans, sep!(S, Q) => A;
    step!(SepMono, sep!(S, Q) => sep!(S, X); step!(Refl, S => S); gap!(Q => X));
    gap!(sep!(S, X) => A)
);

/// From S ∗ X ⊢ A and A ⊢ Q: X ⊢ S -∗ Q.
static AFTER: Scheme = step!(
    WandI, X => wand!(S, Q);
    step!(
        Trans, sep!(X, S) => Q;
        step!(SepComm, sep!(X, S) => sep!(S, X));
        step!(Trans, sep!(S, X) => Q; gap!(sep!(S, X) => A); gap!(A => Q))
    )
);

const R: Pattern = Pattern::Letter(0);

/// Bodies, which stand under the binder alone.
const B: Pattern = Pattern::Letter(1);

const Y: Pattern = Pattern::Letter(2);

const TRUTH: Pattern = Pattern::Pure(&PurePattern::True);

/// From ∃ Y ⊢ R -∗ ∃ B: R ∗ ∃ Y ⊢ ∃ B.
static EX: Scheme = step!(
    Trans, sep!(R, ex!(Y)) => ex!(B);
    step!(SepComm, sep!(R, ex!(Y)) => sep!(ex!(Y), R));
    step!(WandE, sep!(ex!(Y), R) => ex!(B); gap!(ex!(Y) => wand!(R, ex!(B))))
);

/// From ⊤ ⊢ ∃ ⊤ and ∃ ⊤ ⊢ R -∗ ∃ B: R ∗ ⊤ ⊢ ∃ B.
static EX_GONE: Scheme = step!(
    Trans, sep!(R, TRUTH) => ex!(B);
    step!(
        SepMono, sep!(R, TRUTH) => sep!(R, ex!(TRUTH));
        step!(Refl, R => R);
        gap!(TRUTH => ex!(TRUTH))
    );
    step!(
        Trans, sep!(R, ex!(TRUTH)) => ex!(B);
        step!(SepComm, sep!(R, ex!(TRUTH)) => sep!(ex!(TRUTH), R));
        step!(WandE, sep!(ex!(TRUTH), R) => ex!(B); gap!(ex!(TRUTH) => wand!(R, ex!(B))))
    )
);

/// A shifted quantified formula, and what its rule says of its body.
#[derive(Drop)]
struct Opened {
    formula: Formula,
    proof: Proof,
}

/// What is left of `∀ A` without `R`, from what is left of `A` without `S`, which is `R` shifted, in one variable more.
pub fn in_universal(
    alloc: Global,
    vars: u32,
    r: &Formula,
    s: &Formula,
    a: &Formula,
    x: Option<Framed>,
) -> Result<Option<Framed>, Memory>
    requires shifted { s.now ≡ shift_of r.now }
    requires handed { AreHanded vars r.now (view.All a.now) }
    requires part { FrameAnswer (vars + 1) s.now a.now x }
    ensures { IfOk result (λ f. FrameAnswers vars r.now (view.All a.now) (above view.All (frame (shift_of r.now) a.now)) f) }
{
    let Some(x) = x else {
        return Ok(None);
    };
    let Framed { rest, proof } = x;
    if is_truth(&rest) {
        let proof = generalized(alloc, vars, r, &rest, a, proof)?;
        return Ok(Some(Framed { rest, proof }));
    }
    let proof = under_all(alloc, vars + 1, s, &rest, a, proof)?;
    let rest = pm_logic::all(alloc, rest)?;
    let proof = generalized(alloc, vars, r, &rest, a, proof)?;
    Ok(Some(Framed { rest, proof }))
}

/// What is left of `∃ A` without `R`, as for `in_universal`.
pub fn in_existential(
    alloc: Global,
    vars: u32,
    r: &Formula,
    s: &Formula,
    a: &Formula,
    x: Option<Framed>,
) -> Result<Option<Framed>, Memory>
    requires shifted { s.now ≡ shift_of r.now }
    requires handed { AreHanded vars r.now (view.Ex a.now) }
    requires part { FrameAnswer (vars + 1) s.now a.now x }
    ensures { IfOk result (λ f. FrameAnswers vars r.now (view.Ex a.now) (above view.Ex (frame (shift_of r.now) a.now)) f) }
{
    let Some(x) = x else {
        return Ok(None);
    };
    let Framed { rest, proof } = x;
    let proof = under_ex(alloc, vars + 1, s, &rest, a, proof)?;
    let proof = eliminated(alloc, vars, r, &rest, a, proof)?;
    if is_truth(&rest) {
        let proof = ex_gone(alloc, vars, r, a, proof)?;
        return Ok(Some(Framed { rest, proof }));
    }
    let proof = ex_kept(alloc, vars, r, a, &rest, proof)?;
    let rest = pm_logic::ex(alloc, rest)?;
    Ok(Some(Framed { rest, proof }))
}

/// `R ∗ G ⊢ ∀ A`, from `(R ∗ G)↑ ⊢ A` in one variable more.
fn generalized(
    alloc: Global,
    vars: u32,
    r: &Formula,
    g: &Formula,
    a: &Formula,
    inner: Proof,
) -> Result<Proof, Memory>
    requires bounded { IsBounded (view.Sep r.now g.now) }
    requires room { vars + depth_of r.now < BOUND }
    requires inner { conclusion inner ≡ entail (vars + 1) (view.Sep (shift_of r.now) (shift_of g.now)) a.now }
    ensures { IfOk result (λ p. Closes inner (entail vars (view.Sep r.now g.now) (view.All a.now)) 1 (deepest (r.now ∷ g.now ∷ a.now ∷ []) [] + 1) (vars + 1) p) }
{
    let left = pm_logic::sep(alloc, copy(alloc, r)?, copy(alloc, g)?)?;
    let outer = generalize(alloc, vars, &left, a)?;
    Ok(outer.fill(0, inner))
}

/// `∃ G ⊢ R -∗ ∃ A`, from `G ⊢ (R -∗ ∃ A)↑` in one variable more.
fn eliminated(
    alloc: Global,
    vars: u32,
    r: &Formula,
    g: &Formula,
    a: &Formula,
    inner: Proof,
) -> Result<Proof, Memory>
    requires bounded { IsBounded (view.Wand r.now (view.Ex a.now)) }
    requires room { vars + depth_of r.now < BOUND }
    requires inner { conclusion inner ≡ entail (vars + 1) g.now (view.Wand (shift_of r.now) (shift_of (view.Ex a.now))) }
    ensures { IfOk result (λ p. Closes inner (entail vars (view.Ex g.now) (view.Wand r.now (view.Ex a.now))) 1 (deepest (r.now ∷ g.now ∷ a.now ∷ []) [] + 2) (vars + 1) p) }
{
    let right = pm_logic::wand(
        alloc,
        copy(alloc, r)?,
        pm_logic::ex(alloc, copy(alloc, a)?)?,
    )?;
    let outer = eliminate(alloc, vars, g, &right)?;
    Ok(outer.fill(0, inner))
}

/// `S ∗ (∀ G)↑ ⊢ A`, from `S ∗ G ⊢ A`. The last of the variables is the bound one.
fn under_all(
    alloc: Global,
    vars: u32,
    s: &Formula,
    g: &Formula,
    a: &Formula,
    inner: Proof,
) -> Result<Proof, Memory>
    requires some { 0 < vars }
    requires body { IsHanded vars g.now }
    requires inner { conclusion inner ≡ entail vars (view.Sep s.now g.now) a.now }
    ensures { IfOk result (λ p. Closes inner (entail vars (view.Sep s.now (shift_of (view.All g.now))) a.now) 4 (deepest (s.now ∷ a.now ∷ g.now ∷ []) [] + 2) vars p) }
{
    let opened = open_all(alloc, vars, g)?;
    let Opened { formula, proof } = opened;
    let proof = before(alloc, vars, s, a, &formula, g, proof, inner)?;
    Ok(proof)
}

/// `G ⊢ S -∗ (∃ A)↑`, from `S ∗ G ⊢ A`. The last of the variables is the bound one.
fn under_ex(
    alloc: Global,
    vars: u32,
    s: &Formula,
    g: &Formula,
    a: &Formula,
    inner: Proof,
) -> Result<Proof, Memory>
    requires some { 0 < vars }
    requires body { IsHanded vars a.now }
    requires inner { conclusion inner ≡ entail vars (view.Sep s.now g.now) a.now }
    ensures { IfOk result (λ p. Closes inner (entail vars g.now (view.Wand s.now (shift_of (view.Ex a.now)))) 5 (deepest (s.now ∷ a.now ∷ g.now ∷ []) [] + 2) vars p) }
{
    let opened = open_ex(alloc, vars, a)?;
    let Opened { formula, proof } = opened;
    let proof = after(alloc, vars, s, a, &formula, g, inner, proof)?;
    Ok(proof)
}

/// `(∀ B)↑ ⊢ B`, in so many variables, and its left side. The last of the variables is the bound one.
fn open_all(alloc: Global, vars: u32, b: &Formula) -> Result<Opened, Memory>
    requires some { 0 < vars }
    requires body { IsHanded vars b.now }
    ensures formula { IfOk result (λ r. r.formula ≡ shift_of (view.All b.now)) }
    ensures proof { IfOk result (λ r. Proves Every (entail vars (shift_of (view.All b.now)) b.now) [] 1 (depth_of b.now + 1) vars r.proof) }
{
    let whole = pm_logic::all(alloc, copy(alloc, b)?)?;
    let formula = shift(alloc, &whole)?;
    let Formula::All(body) = &formula else {
        unreachable!();
    };
    let proof = specialize(alloc, vars, body.get(), &Term::Var(0))?;
    Ok(Opened { formula, proof })
}

/// `B ⊢ (∃ B)↑`, in so many variables, and its right side. The last of the variables is the bound one.
fn open_ex(alloc: Global, vars: u32, b: &Formula) -> Result<Opened, Memory>
    requires some { 0 < vars }
    requires body { IsHanded vars b.now }
    ensures formula { IfOk result (λ r. r.formula ≡ shift_of (view.Ex b.now)) }
    ensures proof { IfOk result (λ r. Proves Every (entail vars b.now (shift_of (view.Ex b.now))) [] 1 (depth_of b.now + 1) vars r.proof) }
{
    let whole = pm_logic::ex(alloc, copy(alloc, b)?)?;
    let formula = shift(alloc, &whole)?;
    let Formula::Ex(body) = &formula else {
        unreachable!();
    };
    let proof = witness(alloc, vars, body.get(), &Term::Var(0))?;
    Ok(Opened { formula, proof })
}

#[tactic(auto, unfolding(pm_schemes::specs::Tests::passes, pm_schemes::specs::Tests::fits_row))]
fn before(
    alloc: Global,
    vars: u32,
    s: &Formula,
    a: &Formula,
    q: &Formula,
    x: &Formula,
    first: Proof,
    second: Proof,
) -> Result<Proof, Memory>
    requires some { 0 < vars }
    requires quantified { q.now ≡ shift_of (view.All x.now) }
    requires first { conclusion first ≡ entail vars q.now x.now }
    requires second { conclusion second ≡ entail vars (view.Sep s.now x.now) a.now }
    ensures { IfOk result (λ p. ClosesBoth first second (entail vars (view.Sep s.now q.now) a.now) 3 (deepest (s.now ∷ a.now ∷ q.now ∷ x.now ∷ []) [] + 1) vars p) }
{
    let letters = Letters {
        formulas: &[s, a, q, x],
        pures: &[],
    };
    let proof = close_where(alloc, vars, &BEFORE, letters, first, second)?;
    Ok(proof)
}

#[tactic(auto, unfolding(pm_schemes::specs::Tests::passes, pm_schemes::specs::Tests::fits_row))]
fn after(
    alloc: Global,
    vars: u32,
    s: &Formula,
    a: &Formula,
    q: &Formula,
    x: &Formula,
    first: Proof,
    second: Proof,
) -> Result<Proof, Memory>
    requires some { 0 < vars }
    requires quantified { q.now ≡ shift_of (view.Ex a.now) }
    requires first { conclusion first ≡ entail vars (view.Sep s.now x.now) a.now }
    requires second { conclusion second ≡ entail vars a.now q.now }
    ensures { IfOk result (λ p. ClosesBoth first second (entail vars x.now (view.Wand s.now q.now)) 4 (deepest (s.now ∷ a.now ∷ q.now ∷ x.now ∷ []) [] + 1) vars p) }
{
    let letters = Letters {
        formulas: &[s, a, q, x],
        pures: &[],
    };
    let proof = close_where(alloc, vars, &AFTER, letters, first, second)?;
    Ok(proof)
}

#[tactic(auto, unfolding(pm_schemes::specs::Tests::passes, pm_schemes::specs::Tests::fits_row))]
fn ex_kept(
    alloc: Global,
    vars: u32,
    r: &Formula,
    b: &Formula,
    y: &Formula,
    inner: Proof,
) -> Result<Proof, Memory>
    requires { conclusion inner ≡ entail vars (view.Ex y.now) (view.Wand r.now (view.Ex b.now)) }
    ensures { IfOk result (λ p. Closes inner (entail vars (view.Sep r.now (view.Ex y.now)) (view.Ex b.now)) 3 (deepest (r.now ∷ b.now ∷ y.now ∷ []) [] + 2) vars p) }
{
    let letters = Letters {
        formulas: &[r, b, y],
        pures: &[],
    };
    let proof = close(alloc, vars, &EX, letters, inner)?;
    Ok(proof)
}

#[tactic(auto, unfolding(pm_schemes::specs::Tests::passes, pm_schemes::specs::Tests::fits_row))]
fn ex_gone(
    alloc: Global,
    vars: u32,
    r: &Formula,
    b: &Formula,
    inner: Proof,
) -> Result<Proof, Memory>
    requires vars { vars ≤ BOUND }
    requires inner { conclusion inner ≡ entail vars (view.Ex truth) (view.Wand r.now (view.Ex b.now)) }
    ensures { IfOk result (λ p. Closes inner (entail vars (view.Sep r.now truth) (view.Ex b.now)) 7 (deepest (r.now ∷ b.now ∷ []) [] + 4) vars p) }
{
    let there = some_truth(alloc, vars)?;
    let letters = Letters {
        formulas: &[r, b],
        pures: &[],
    };
    let proof = close_both(alloc, vars, &EX_GONE, letters, there, inner)?;
    Ok(proof)
}

/// `⊤ ⊢ ∃ ⊤`
fn some_truth(alloc: Global, vars: u32) -> Result<Proof, Memory>
    requires { vars ≤ BOUND }
    ensures { IfOk result (λ p. Proves Every (entail vars truth (view.Ex truth)) [] 1 3 vars p) }
{
    let proof = witness(alloc, vars, &Formula::Pure(Pure::True), &Term::Lit(0))?;
    Ok(proof)
}

//! Derived rules of these actions.

ghost use Rattle.std.specs.Prelude.{◌≡◌, ◌+◌, [], ◌∷◌, IfOk};
ghost use Rattle.pm_logic.specs.declared.formula.Formula.{Formula as Tree};
ghost use Rattle.pm_logic.specs.declared.formula.Formula.TheVariants.{Pure as Fact};
ghost use Rattle.pm_logic.specs.declared.formula.Formula.TheViews as view;
ghost use Rattle.pm_logic.specs.declared.formula.Pure.TheVariants as pure;
ghost use Rattle.pm_goal.specs.Left.{of_kind};
ghost use Rattle.pm_proof.specs.Trees.{entail, conclusion};
ghost use Rattle.pm_proof.specs.Known.{Proves, Every};
ghost use Rattle.pm_schemes.specs.Sketches.{deepest};
ghost use Rattle.pm_hand.specs.Changed.{IsFirst};

use pm_goal::Kind;
use pm_logic::{Formula, Memory, Pure};
use pm_proof::Proof;
use pm_schemes::{Letters, Pattern, PurePattern, Scheme, derive, gap, pers, sep, step};
use std::alloc::Global;

const A: Pattern = Pattern::Letter(0);

const X: Pattern = Pattern::Letter(1);

const Y: Pattern = Pattern::Letter(2);

const FACT: Pattern = Pattern::Pure(&PurePattern::Letter(0));

const FALSEHOOD: Pattern = Pattern::Pure(&PurePattern::False);

/// □ A ⊢ A
static UNBOXED: Scheme = step!(PersElim, pers!(A) => A);

/// ⌜φ⌝ ⊢ □ ⌜φ⌝
static BOXED: Scheme = step!(PersPure, FACT => pers!(FACT));

/// ⌜False⌝ ⊢ A
static ABSURD: Scheme = step!(False, FALSEHOOD => A);

/// □ ⌜False⌝ ⊢ A
static ABSURD_BOXED: Scheme = step!(
    Trans, pers!(FALSEHOOD) => A;
    step!(PersElim, pers!(FALSEHOOD) => FALSEHOOD);
    step!(False, FALSEHOOD => A)
);

/// From X ⊢ A ∗ Y: X ⊢ A.
static FIRST: Scheme = step!(
    Trans, X => A;
    gap!(X => sep!(A, Y));
    step!(SepWeaken, sep!(A, Y) => A)
);

/// `□ f ⊢ f`
#[tactic(auto, unfolding(pm_schemes::specs::Tests::passes, pm_schemes::specs::Tests::fits_row))]
pub fn unboxed(alloc: Global, vars: u32, f: &Formula) -> Result<Proof, Memory>
    ensures { IfOk result (λ p. Proves Every (entail vars (view.Pers f.now) f.now) [] 1 (deepest (f.now ∷ []) [] + 1) vars p) }
{
    let letters = Letters {
        formulas: &[f],
        pures: &[],
    };
    let proof = derive(alloc, vars, &UNBOXED, letters)?;
    Ok(proof)
}

/// `⌜p⌝ ⊢ □ ⌜p⌝`
#[tactic(auto, unfolding(pm_schemes::specs::Tests::passes, pm_schemes::specs::Tests::fits_row))]
pub fn boxed(alloc: Global, vars: u32, p: &Pure) -> Result<Proof, Memory>
    ensures { IfOk result (λ t. Proves Every (entail vars (Fact p.now) (view.Pers (Fact p.now))) [] 1 (deepest [] (p.now ∷ []) + 2) vars t) }
{
    let letters = Letters {
        formulas: &[],
        pures: &[p],
    };
    let proof = derive(alloc, vars, &BOXED, letters)?;
    Ok(proof)
}

#[tactic(auto, unfolding(pm_schemes::specs::Tests::passes, pm_schemes::specs::Tests::fits_row))]
fn absurd_spat(alloc: Global, vars: u32, a: &Formula) -> Result<Proof, Memory>
    ensures { IfOk result (λ p. Proves Every (entail vars (Fact pure.False) a.now) [] 1 (deepest (a.now ∷ []) [] + 2) vars p) }
{
    let letters = Letters {
        formulas: &[a],
        pures: &[],
    };
    let proof = derive(alloc, vars, &ABSURD, letters)?;
    Ok(proof)
}

#[tactic(auto, unfolding(pm_schemes::specs::Tests::passes, pm_schemes::specs::Tests::fits_row))]
fn absurd_int(alloc: Global, vars: u32, a: &Formula) -> Result<Proof, Memory>
    ensures { IfOk result (λ p. Proves Every (entail vars (view.Pers (Fact pure.False)) a.now) [] 3 (deepest (a.now ∷ []) [] + 3) vars p) }
{
    let letters = Letters {
        formulas: &[a],
        pures: &[],
    };
    let proof = derive(alloc, vars, &ABSURD_BOXED, letters)?;
    Ok(proof)
}

/// From a contradiction of the kind, `a`.
pub fn from_absurd(alloc: Global, vars: u32, kind: Kind, a: &Formula) -> Result<Proof, Memory>
    ensures { IfOk result (λ p. Proves Every (entail vars (of_kind kind (Fact pure.False)) a.now) [] 3 (deepest (a.now ∷ []) [] + 3) vars p) }
{
    match kind {
        Kind::Int => absurd_int(alloc, vars, a),
        Kind::Spat => absurd_spat(alloc, vars, a),
    }
}

/// From `X ⊢ A ∗ Y`, which is its hole: `X ⊢ A`.
#[tactic(auto, unfolding(pm_schemes::specs::Tests::passes, pm_schemes::specs::Tests::fits_row))]
fn first_step(
    alloc: Global,
    vars: u32,
    a: &Formula,
    x: &Formula,
    y: &Formula,
) -> Result<Proof, Memory>
    ensures { IfOk result (λ p. Proves Every (entail vars x.now a.now) (entail vars x.now (view.Sep a.now y.now) ∷ []) 2 (deepest (a.now ∷ x.now ∷ y.now ∷ []) [] + 1) vars p) }
{
    let letters = Letters {
        formulas: &[a, x, y],
        pures: &[],
    };
    let proof = derive(alloc, vars, &FIRST, letters)?;
    Ok(proof)
}

/// From a proof of `X ⊢ A ∗ Y`: `X ⊢ A`.
pub fn first(alloc: Global, by: Proof) -> Result<Proof, Memory>
    requires { (x : Tree) × (a : Tree) × (y : Tree) × (conclusion by ≡ entail (conclusion by).vars x (view.Sep a y)) }
    ensures { IfOk result (λ p. IsFirst by p) }
{
    let e = by.conclusion();
    match &e.right {
        Formula::Sep(a, y) => {
            let step = first_step(alloc, e.vars, a.get(), &e.left, y.get())?;
            Ok(step.fill(0, by))
        }
        _ => unreachable!(),
    }
}

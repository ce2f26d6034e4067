//! Derived rules of framing.

ghost use Rattle.std.specs.Prelude.{◌≡◌, ◌+◌, [], ◌∷◌, IfOk};
ghost use Rattle.pm_logic.specs.declared.formula.Formula.TheVariants.{Pure as Assert};
ghost use Rattle.pm_logic.specs.declared.formula.Formula.TheViews as view;
ghost use Rattle.pm_logic.specs.declared.formula.Pure.TheVariants as pure;
ghost use Rattle.pm_goal.specs.Left.{of_kind};
ghost use Rattle.pm_proof.specs.Trees.{entail};
ghost use Rattle.pm_proof.specs.Known.{Proves, Every};
ghost use Rattle.pm_schemes.specs.Sketches.{deepest};

use pm_goal::Kind;
use pm_logic::{Formula, Memory};
use pm_proof::Proof;
use pm_schemes::{Letters, Pattern, PurePattern, Scheme, derive, gap, pers, sep, step};
use std::alloc::Global;

const A: Pattern = Pattern::Letter(0);

const X: Pattern = Pattern::Letter(1);

const Y: Pattern = Pattern::Letter(2);

const C: Pattern = Pattern::Letter(3);

const TRUTH: Pattern = Pattern::Pure(&PurePattern::True);

/// A ⊢ ⌜True⌝
static ALWAYS: Scheme = step!(True, A => TRUTH);

/// From X ⊢ Y and A ∗ Y ⊢ C: A ∗ X ⊢ C.
static BESIDE: Scheme = step!(
    Trans, sep!(A, X) => C;
    step!(
        SepMono, sep!(A, X) => sep!(A, Y);
        step!(Refl, A => A);
        gap!(X => Y)
    );
    gap!(sep!(A, Y) => C)
);

/// From X ⊢ Y and A ∗ Y ⊢ C: □ A ∗ X ⊢ C.
static BESIDE_BOXED: Scheme = step!(
    Trans, sep!(pers!(A), X) => C;
    step!(
        SepMono, sep!(pers!(A), X) => sep!(A, Y);
        step!(PersElim, pers!(A) => A);
        gap!(X => Y)
    );
    gap!(sep!(A, Y) => C)
);

/// `f ⊢ ⌜True⌝`
#[tactic(auto, unfolding(pm_schemes::specs::Tests::passes, pm_schemes::specs::Tests::fits_row))]
pub fn always(alloc: Global, vars: u32, f: &Formula) -> Result<Proof, Memory>
    ensures { IfOk result (λ p. Proves Every (entail vars f.now (Assert pure.True)) [] 1 (deepest (f.now ∷ []) [] + 2) vars p) }
{
    let letters = Letters {
        formulas: &[f],
        pures: &[],
    };
    let proof = derive(alloc, vars, &ALWAYS, letters)?;
    Ok(proof)
}

#[tactic(auto, unfolding(pm_schemes::specs::Tests::passes, pm_schemes::specs::Tests::fits_row))]
fn beside_spat(
    alloc: Global,
    vars: u32,
    a: &Formula,
    x: &Formula,
    y: &Formula,
    c: &Formula,
) -> Result<Proof, Memory>
    ensures { IfOk result (λ p. Proves Every (entail vars (view.Sep a.now x.now) c.now) (entail vars x.now y.now ∷ entail vars (view.Sep a.now y.now) c.now ∷ []) 3 (deepest (a.now ∷ x.now ∷ y.now ∷ c.now ∷ []) [] + 1) vars p) }
{
    let letters = Letters {
        formulas: &[a, x, y, c],
        pures: &[],
    };
    let proof = derive(alloc, vars, &BESIDE, letters)?;
    Ok(proof)
}

#[tactic(auto, unfolding(pm_schemes::specs::Tests::passes, pm_schemes::specs::Tests::fits_row))]
fn beside_int(
    alloc: Global,
    vars: u32,
    a: &Formula,
    x: &Formula,
    y: &Formula,
    c: &Formula,
) -> Result<Proof, Memory>
    ensures { IfOk result (λ p. Proves Every (entail vars (view.Sep (view.Pers a.now) x.now) c.now) (entail vars x.now y.now ∷ entail vars (view.Sep a.now y.now) c.now ∷ []) 3 (deepest (a.now ∷ x.now ∷ y.now ∷ c.now ∷ []) [] + 2) vars p) }
{
    let letters = Letters {
        formulas: &[a, x, y, c],
        pures: &[],
    };
    let proof = derive(alloc, vars, &BESIDE_BOXED, letters)?;
    Ok(proof)
}

/// From `X ⊢ Y` and `A ∗ Y ⊢ C`, which are its holes: `A ∗ X ⊢ C`, where `A` stands as its kind does.
pub fn beside(
    alloc: Global,
    vars: u32,
    kind: Kind,
    a: &Formula,
    x: &Formula,
    y: &Formula,
    c: &Formula,
) -> Result<Proof, Memory>
    ensures { IfOk result (λ p. Proves Every (entail vars (view.Sep (of_kind kind a.now) x.now) c.now) (entail vars x.now y.now ∷ entail vars (view.Sep a.now y.now) c.now ∷ []) 3 (deepest (a.now ∷ x.now ∷ y.now ∷ c.now ∷ []) [] + 2) vars p) }
{
    match kind {
        Kind::Int => beside_int(alloc, vars, a, x, y, c),
        Kind::Spat => beside_spat(alloc, vars, a, x, y, c),
    }
}

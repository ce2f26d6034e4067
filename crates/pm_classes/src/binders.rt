//! Proofs that go under a binder.

ghost use Rattle.std.specs.Prelude.{◌≡◌, ◌+◌, ◌<◌, [], ◌∷◌, IfOk};
ghost use Rattle.pm_logic.specs.declared.formula.Formula.TheViews as view;
ghost use Rattle.pm_logic.specs.Size.{depth_of};
ghost use Rattle.pm_logic.specs.Substitution.{shift_of};
ghost use Rattle.pm_proof.specs.Trees.{entail, conclusion};
ghost use Rattle.pm_proof.specs.Known.{Proves, Every};
ghost use Rattle.pm_schemes.specs.Sketches.{deepest};
ghost use Rattle.pm_classes.specs.Closing.{Closes, ClosesBoth};
ghost use Rattle.pm_classes.specs.Entries.{HasProof, IsHanded};

use crate::closing::{close, close_both};
use crate::entry::One;
use pm_logic::{Formula, Memory, Term, copy, shift};
use pm_proof::Proof;
use pm_schemes::{
    Letters, Pattern, Scheme, all, eliminate, gap, generalize, later, pers, specialize, step,
    witness,
};
use std::alloc::Global;

const A: Pattern = Pattern::Letter(0);

const X: Pattern = Pattern::Letter(1);

/// From A ⊢ X: ▷ A ⊢ ▷ X.
static LATER: Scheme = step!(LaterMono, later!(A) => later!(X); gap!(A => X));

/// From A ⊢ X: □ A ⊢ □ X.
static PERS: Scheme = step!(PersMono, pers!(A) => pers!(X); gap!(A => X));

/// From A ⊢ X and X ⊢ □ X: A ⊢ □ X.
static THROUGH: Scheme = step!(Trans, A => pers!(X); gap!(A => X); gap!(X => pers!(X)));

/// From X ⊢ □ X and X ⊢ A: X ⊢ □ A.
static ONWARD: Scheme = step!(
    Trans, X => pers!(A);
    gap!(X => pers!(X));
    step!(PersMono, pers!(X) => pers!(A); gap!(X => A))
);

/// A body, which stands under the binder alone.
const BODY: Pattern = Pattern::Letter(0);

/// From ∀ B ⊢ ∀ □ B: ∀ B ⊢ □ ∀ B.
static ALL: Scheme = step!(
    Trans, all!(BODY) => pers!(all!(BODY));
    gap!(all!(BODY) => all!(pers!(BODY)));
    step!(PersAll, all!(pers!(BODY)) => pers!(all!(BODY)))
);

/// `(∀ B)↑ ⊢ B`, in so many variables, and its left side. The last of the variables is the bound one.
fn open_all(alloc: Global, vars: u32, b: &Formula) -> Result<One, Memory>
    requires some { 0 < vars }
    requires body { IsHanded vars b.now }
    ensures formula { IfOk result (λ r. r.formula ≡ shift_of (view.All b.now)) }
    ensures proof { IfOk result (λ r. Proves Every (entail vars (shift_of (view.All b.now)) b.now) [] 1 (depth_of b.now + 1) vars r.proof) }
{
    let whole = pm_logic::all(alloc, copy(alloc, b)?)?;
    let formula = shift(alloc, &whole)?;
    let Formula::All(body) = &formula else {
        unreachable!();
    };
    let proof = specialize(alloc, vars, body.get(), &Term::Var(0))?;
    Ok(One { formula, proof })
}

/// `B ⊢ (∃ B)↑`, in so many variables, and its right side. The last of the variables is the bound one.
fn open_ex(alloc: Global, vars: u32, b: &Formula) -> Result<One, Memory>
    requires some { 0 < vars }
    requires body { IsHanded vars b.now }
    ensures formula { IfOk result (λ r. r.formula ≡ shift_of (view.Ex b.now)) }
    ensures proof { IfOk result (λ r. Proves Every (entail vars b.now (shift_of (view.Ex b.now))) [] 1 (depth_of b.now + 1) vars r.proof) }
{
    let whole = pm_logic::ex(alloc, copy(alloc, b)?)?;
    let formula = shift(alloc, &whole)?;
    let Formula::Ex(body) = &formula else {
        unreachable!();
    };
    let proof = witness(alloc, vars, body.get(), &Term::Var(0))?;
    Ok(One { formula, proof })
}

/// `▷ ∀ B ⊢ ∀ ▷ B`
pub fn later_inward(alloc: Global, vars: u32, b: &Formula) -> Result<Proof, Memory>
    requires { IsHanded (vars + 1) b.now }
    ensures { IfOk result (λ p. Proves Every (entail vars (view.Later (view.All b.now)) (view.All (view.Later b.now))) [] 3 (depth_of b.now + 4) (vars + 1) p) }
{
    let opened = open_all(alloc, vars + 1, b)?;
    let One { formula, proof } = opened;
    let under = later_mono(alloc, vars + 1, &formula, b, proof)?;
    let left = pm_logic::later(alloc, pm_logic::all(alloc, copy(alloc, b)?)?)?;
    let body = pm_logic::later(alloc, copy(alloc, b)?)?;
    let outer = generalize(alloc, vars, &left, &body)?;
    Ok(outer.fill(0, under))
}

/// `□ ∀ B ⊢ ∀ □ B`
pub fn pers_inward(alloc: Global, vars: u32, b: &Formula) -> Result<Proof, Memory>
    requires { IsHanded (vars + 1) b.now }
    ensures { IfOk result (λ p. Proves Every (entail vars (view.Pers (view.All b.now)) (view.All (view.Pers b.now))) [] 3 (depth_of b.now + 4) (vars + 1) p) }
{
    let opened = open_all(alloc, vars + 1, b)?;
    let One { formula, proof } = opened;
    let under = pers_mono(alloc, vars + 1, &formula, b, proof)?;
    let left = pm_logic::pers(alloc, pm_logic::all(alloc, copy(alloc, b)?)?)?;
    let body = pm_logic::pers(alloc, copy(alloc, b)?)?;
    let outer = generalize(alloc, vars, &left, &body)?;
    Ok(outer.fill(0, under))
}

/// `∀ B ⊢ □ ∀ B`, from `B ⊢ □ B` in one variable more.
pub fn boxed_all(alloc: Global, vars: u32, b: &Formula, inner: Proof) -> Result<Proof, Memory>
    requires handed { IsHanded (vars + 1) b.now }
    requires inner { HasProof (vars + 1) b.now (entail (vars + 1) b.now (view.Pers b.now)) inner }
    ensures { IfOk result (λ p. HasProof vars (view.All b.now) (entail vars (view.All b.now) (view.Pers (view.All b.now))) p) }
{
    let opened = open_all(alloc, vars + 1, b)?;
    let One { formula, proof } = opened;
    let under = through(alloc, vars + 1, &formula, b, proof, inner)?;
    let left = pm_logic::all(alloc, copy(alloc, b)?)?;
    let body = pm_logic::pers(alloc, copy(alloc, b)?)?;
    let outer = generalize(alloc, vars, &left, &body)?;
    let inside = outer.fill(0, under);
    let proof = all_outward(alloc, vars, b, inside)?;
    Ok(proof)
}

/// `∃ B ⊢ □ ∃ B`, from `B ⊢ □ B` in one variable more.
pub fn boxed_ex(alloc: Global, vars: u32, b: &Formula, inner: Proof) -> Result<Proof, Memory>
    requires handed { IsHanded (vars + 1) b.now }
    requires inner { HasProof (vars + 1) b.now (entail (vars + 1) b.now (view.Pers b.now)) inner }
    ensures { IfOk result (λ p. HasProof vars (view.Ex b.now) (entail vars (view.Ex b.now) (view.Pers (view.Ex b.now))) p) }
{
    let opened = open_ex(alloc, vars + 1, b)?;
    let One { formula, proof } = opened;
    let under = onward(alloc, vars + 1, &formula, b, inner, proof)?;
    let right = pm_logic::pers(alloc, pm_logic::ex(alloc, copy(alloc, b)?)?)?;
    let outer = eliminate(alloc, vars, b, &right)?;
    Ok(outer.fill(0, under))
}

#[tactic(auto, unfolding(pm_schemes::specs::Tests::passes, pm_schemes::specs::Tests::fits_row))]
fn later_mono(
    alloc: Global,
    vars: u32,
    a: &Formula,
    x: &Formula,
    inner: Proof,
) -> Result<Proof, Memory>
    requires { conclusion inner ≡ entail vars a.now x.now }
    ensures { IfOk result (λ p. Closes inner (entail vars (view.Later a.now) (view.Later x.now)) 1 (deepest (a.now ∷ x.now ∷ []) [] + 1) vars p) }
{
    let letters = Letters {
        formulas: &[a, x],
        pures: &[],
    };
    let proof = close(alloc, vars, &LATER, letters, inner)?;
    Ok(proof)
}

#[tactic(auto, unfolding(pm_schemes::specs::Tests::passes, pm_schemes::specs::Tests::fits_row))]
fn pers_mono(
    alloc: Global,
    vars: u32,
    a: &Formula,
    x: &Formula,
    inner: Proof,
) -> Result<Proof, Memory>
    requires { conclusion inner ≡ entail vars a.now x.now }
    ensures { IfOk result (λ p. Closes inner (entail vars (view.Pers a.now) (view.Pers x.now)) 1 (deepest (a.now ∷ x.now ∷ []) [] + 1) vars p) }
{
    let letters = Letters {
        formulas: &[a, x],
        pures: &[],
    };
    let proof = close(alloc, vars, &PERS, letters, inner)?;
    Ok(proof)
}

#[tactic(auto, unfolding(pm_schemes::specs::Tests::passes, pm_schemes::specs::Tests::fits_row))]
fn all_outward(alloc: Global, vars: u32, b: &Formula, inner: Proof) -> Result<Proof, Memory>
    requires { conclusion inner ≡ entail vars (view.All b.now) (view.All (view.Pers b.now)) }
    ensures { IfOk result (λ p. Closes inner (entail vars (view.All b.now) (view.Pers (view.All b.now))) 2 (deepest (b.now ∷ []) [] + 2) vars p) }
{
    let letters = Letters {
        formulas: &[b],
        pures: &[],
    };
    let proof = close(alloc, vars, &ALL, letters, inner)?;
    Ok(proof)
}

#[tactic(auto, unfolding(pm_schemes::specs::Tests::passes, pm_schemes::specs::Tests::fits_row))]
fn through(
    alloc: Global,
    vars: u32,
    a: &Formula,
    x: &Formula,
    first: Proof,
    second: Proof,
) -> Result<Proof, Memory>
    requires first { conclusion first ≡ entail vars a.now x.now }
    requires second { conclusion second ≡ entail vars x.now (view.Pers x.now) }
    ensures { IfOk result (λ p. ClosesBoth first second (entail vars a.now (view.Pers x.now)) 1 (deepest (a.now ∷ x.now ∷ []) [] + 1) vars p) }
{
    let letters = Letters {
        formulas: &[a, x],
        pures: &[],
    };
    let proof = close_both(alloc, vars, &THROUGH, letters, first, second)?;
    Ok(proof)
}

#[tactic(auto, unfolding(pm_schemes::specs::Tests::passes, pm_schemes::specs::Tests::fits_row))]
fn onward(
    alloc: Global,
    vars: u32,
    a: &Formula,
    x: &Formula,
    first: Proof,
    second: Proof,
) -> Result<Proof, Memory>
    requires first { conclusion first ≡ entail vars x.now (view.Pers x.now) }
    requires second { conclusion second ≡ entail vars x.now a.now }
    ensures { IfOk result (λ p. ClosesBoth first second (entail vars x.now (view.Pers a.now)) 2 (deepest (a.now ∷ x.now ∷ []) [] + 1) vars p) }
{
    let letters = Letters {
        formulas: &[a, x],
        pures: &[],
    };
    let proof = close_both(alloc, vars, &ONWARD, letters, first, second)?;
    Ok(proof)
}
